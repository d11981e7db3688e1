//! Tests of the crate `callers`: each caller over a log in a folder of the disk and over one that takes no line, and each example of the
//! library's doc comments.
#![tactic(auto)]

#[cfg(test)]
mod examples;
#[cfg(test)]
mod uses;
