// The file of given sizes, origin and entries, and that a load gives these back; files of the layout before
// 0.7.0. Definitions and laws, and no code.
#![tactic(auto)]
