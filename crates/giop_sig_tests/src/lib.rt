//! Tests of signatures: the built-in types, signature files and request lists, and files that are read as one text.
#![tactic(auto)]

#[cfg(test)]
mod builtin_tests;
#[cfg(test)]
mod expecting;
#[cfg(test)]
mod file_rows;
#[cfg(test)]
mod file_tests;
#[cfg(test)]
mod identity_tests;
#[cfg(test)]
mod interface_tests;
#[cfg(test)]
mod joined_tests;
#[cfg(test)]
mod limit_tests;
#[cfg(test)]
mod list_limit_tests;
#[cfg(test)]
mod list_rows;
#[cfg(test)]
mod list_tests;
#[cfg(test)]
mod name_tests;
#[cfg(test)]
mod rows;
#[cfg(test)]
mod third_rows;
#[cfg(test)]
mod types;
#[cfg(test)]
mod version_rows;
#[cfg(test)]
mod word_tests;
