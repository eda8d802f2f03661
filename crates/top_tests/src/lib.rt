//! Tests of the wire and of the top call that no row of data covers: the bytes that a framer holds, replies of any number, answers that occur on no short
//! connection, and arguments that start no nodes. They show that the definitions have the intended meaning, and that calls succeed where there is memory.
#![tactic(auto)]

#[cfg(test)]
mod answers;
#[cfg(test)]
mod arguments;
#[cfg(test)]
mod framer;
#[cfg(test)]
mod replies;
