// No code: the three demands, said of the public calls of `calls` as their contracts promise them, and proved.
#![tactic(auto)]
