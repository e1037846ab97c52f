//! What the words of the command line ask for.

/// What the words of the command line ask for.
#[derive(Drop)]
pub enum Request<'a> {
    /// To answer commands about the run of a module.
    Debug { binary: &'a str, setup: &'a str },
    /// To tell whether a module is accepted.
    Check { binary: &'a str },
    /// To run the inputs that are made for a number of 1 to 64.
    Make { number: u32 },
    /// To list the instructions of a module.
    Text { binary: &'a str },
    /// To tell how to call the program: the text that does.
    Help { text: String },
}

/// The words are no command line of the program.
#[derive(Clone, Copy, Debug)]
pub struct FaultyWords;
