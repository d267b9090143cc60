// The calls for C and Rust hosts: on numbers and slices, each slice a pointer and its number of elements. So some have more than seven parameters.
// include/longdust.h says for each argument what it is, its size and its limits. Each call returns a count, or minus a refusal's number.

#![tactic(auto)]

mod copies;
mod filling;
mod joining;
mod masking;
mod merging;
mod numbers;
mod one_strand;
mod positions;
mod profile;
mod short;
mod stretches;
mod strongest_stretches;
mod table_filling;
mod texts;
