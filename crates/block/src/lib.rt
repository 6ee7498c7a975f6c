// Blocks as a whole: the two forms (specs/Forms), what is framed opens again, and how tight the promises of `opening` and `framing`
// are. The code is theirs; here are only theorems.
#![tactic(auto)]
