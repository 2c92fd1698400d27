//! Tests of grammars, automata, tables and the arrays of C parsers that need code: marks of grammars
//! by the public calls; the symbols that vanish and the FIRST sets of an automaton, lookaheads
//! beside the plain saturation, the limit of states; cells and choices, the greatest number of
//! conflicts, where packed rows go, and writers that take a byte a call or fail; arrays by hand;
//! texts that are handed on to a device.
#![tactic(auto)]

#[cfg(test)]
mod arrays;
#[cfg(test)]
mod cells;
#[cfg(test)]
mod choices;
#[cfg(test)]
mod compared;
#[cfg(test)]
mod displacements;
#[cfg(test)]
mod made;
#[cfg(test)]
mod marks;
#[cfg(test)]
mod outputs;
#[cfg(test)]
mod reference;
#[cfg(test)]
mod symbols;
#[cfg(test)]
mod texts;
#[cfg(test)]
mod worked;
#[cfg(test)]
mod writers;
