//! Who the program is when it is called.
//!
//! Called as `bison`, or with a word that asks for it, it gives files bison's names, and makes each
//! parser as bison does. Called by any other name, as `ycc` or `yacc`, it gives them the names of
//! `bison -y`, and what a file has says whose parser is made.

/// Whether a call is one of `bison`, by the path of the program in it.
pub fn is_bison(call: &str) -> bool {
    call.rsplit('/').next() == Some("bison")
}
