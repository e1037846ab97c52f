//! Modules with one word changed, or without their last bytes.

/// A line of a list of changes: the word that is changed, what it becomes, and how many bytes of the module there are. A word past
/// the end changes none.
#[derive(Drop)]
pub struct Change {
    /// The number of the word.
    pub word: usize,
    /// What it becomes.
    pub number: u32,
    /// How many bytes are left of the module.
    pub length: usize,
}

impl Change {
    /// The change of a line of three numbers.
    pub fn of(line: &str) -> Option<Change> {
        let (word, rest) = line.split_once(' ')?;
        let (number, length) = rest.split_once(' ')?;
        Some(Change {
            word: word.parse().ok()?,
            number: number.parse().ok()?,
            length: length.parse().ok()?,
        })
    }

    /// Changes a module.
    pub fn apply(&self, bytes: &mut Vec<u8>) {
        let start = self.word.saturating_mul(4);
        for (n, byte) in self.number.to_le_bytes().iter().enumerate() {
            if let Some(place) = bytes.get_mut(start.saturating_add(n)) {
                *place = *byte;
            }
        }
        bytes.truncate(self.length);
    }
}
