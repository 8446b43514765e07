// Looking at two candidates loses nothing (request E10): for Lambda from 0 to 1104 no pulse number at all has a level with a lower cost than the first
// candidate. The same holds from 2049 on, and with each Lambda in between something is lost. There is no code here: these are theorems about the choice
// of the crate `choice`, about a path's candidates in `path`, and about what `steps` settles at each sample of an accepted call.

#![tactic(auto)]
