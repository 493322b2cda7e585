//! The tests of the program, each in a file with the name of the module that it tests. The file
//! `support` has what they share.

mod command;
mod dialogue;
mod reason;
mod script;
mod support;
