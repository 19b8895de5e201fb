// A stored job in one pass: laws without code. Check 12 asks that the stored job is one that opening leaves: its records are restored and give it back;
// here it is proved that a walk over the nodes with a stack, and a test of each split, answers the same. `check_job` is that walk on lent bytes. Read
// Walk in specs/ (the test), then Complete and Sound in proofs/ (it passes just the jobs that the rules pass).
#![tactic(auto)]
