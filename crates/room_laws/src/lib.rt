// Laws of the rooms that no proof cites: each has the words that it had when one did. Some are named in docs/PROVING.md.
#![tactic(auto)]
