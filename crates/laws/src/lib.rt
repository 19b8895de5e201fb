// Laws about the definitions of `rules`, for the crates above: see specs/.
#![tactic(auto)]
