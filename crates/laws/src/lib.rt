// Laws on every list of steps beside demand 3: refusals by the history alone, what alters an image, wasted fences, the log's sum. It holds
// no code.
#![tactic(auto)]
