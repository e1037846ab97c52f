//! The words that commands begin with.
ghost use Rattle.std.specs.Prelude.{◌≡◌, ◌≢◌, MatchOption, map};
ghost use Rattle.std.specs.Option.{option_map};
ghost use Rattle.spv_cmd.specs.declared.keywords.Keyword.{Keyword as AnyKeyword};
ghost use Rattle.spv_cmd.specs.Answers.{row_with};
ghost use Rattle.spv_cmd.specs.Grammar.{spelling, is_built};

/// The word that a command begins with: the variant's name in small letters.
#[derive(Clone, Copy)]
pub enum Keyword {
    /// `goto`
    Goto,
    /// `fwd`
    Fwd,
    /// `back`
    Back,
    /// `stepi`
    Stepi,
    /// `rstepi`
    Rstepi,
    /// `step`
    Step,
    /// `next`
    Next,
    /// `finish`
    Finish,
    /// `rstep`
    Rstep,
    /// `rnext`
    Rnext,
    /// `rfinish`
    Rfinish,
    /// `continue`
    Continue,
    /// `rcontinue`
    Rcontinue,
    /// `where`
    Where,
    /// `group`
    Group,
    /// `focus`
    Focus,
    /// `bt`
    Bt,
    /// `frame`
    Frame,
    /// `locals`
    Locals,
    /// `globals`
    Globals,
    /// `print`
    Print,
    /// `regs`
    Regs,
    /// `list`
    List,
    /// `break`
    Break,
    /// `delete`
    Delete,
    /// `watch`
    Watch,
    /// `unwatch`
    Unwatch,
    /// `info`
    Info,
    /// `tally`
    Tally,
    /// `drop`
    Drop,
    /// `halt`
    Halt,
    /// `order`
    Order,
    /// `quit`
    Quit,
}

/// A keyword, how it is written, and whether its command is built.
type Row = (Keyword, &'static [u8], bool);

/// All of them, in the order above.
const ROWS: [Row; 33] = [
    (Keyword::Goto, b"goto", true),
    (Keyword::Fwd, b"fwd", true),
    (Keyword::Back, b"back", true),
    (Keyword::Stepi, b"stepi", true),
    (Keyword::Rstepi, b"rstepi", true),
    (Keyword::Step, b"step", true),
    (Keyword::Next, b"next", true),
    (Keyword::Finish, b"finish", true),
    (Keyword::Rstep, b"rstep", true),
    (Keyword::Rnext, b"rnext", true),
    (Keyword::Rfinish, b"rfinish", true),
    (Keyword::Continue, b"continue", true),
    (Keyword::Rcontinue, b"rcontinue", true),
    (Keyword::Where, b"where", true),
    (Keyword::Group, b"group", true),
    (Keyword::Focus, b"focus", true),
    (Keyword::Bt, b"bt", true),
    (Keyword::Frame, b"frame", true),
    (Keyword::Locals, b"locals", true),
    (Keyword::Globals, b"globals", true),
    (Keyword::Print, b"print", true),
    (Keyword::Regs, b"regs", true),
    (Keyword::List, b"list", true),
    (Keyword::Break, b"break", true),
    (Keyword::Delete, b"delete", true),
    (Keyword::Watch, b"watch", true),
    (Keyword::Unwatch, b"unwatch", true),
    (Keyword::Info, b"info", true),
    (Keyword::Tally, b"tally", true),
    (Keyword::Drop, b"drop", true),
    (Keyword::Halt, b"halt", true),
    (Keyword::Order, b"order", true),
    (Keyword::Quit, b"quit", true),
];

/// How a keyword is written.
pub fn spelling(keyword: Keyword) -> &'static [u8]
    ensures { result.now ≡ spelling keyword }
{
    ROWS[keyword as usize].1
}

fn row_in(mut table: &'static [Row], word: &[u8]) -> Option<Row>
    ensures { option_map (λ r. (r.0, r.1.now, r.2)) result ≡ row_with word.now (map (λ r. (r.0, r.1.now, r.2)) table.entry.now) }
{
    while let [row, more @ ..] = table {
        if row.1 == word {
            return Some(*row);
        }
        table = more;
    }
    None
}

/// The keyword that a word is, and whether its command is built.
pub fn find_keyword(word: &[u8]) -> Option<(Keyword, bool)>
    ensures { MatchOption result ((keyword : AnyKeyword) → word.now ≢ spelling keyword)
        (λ found. (word.now ≡ spelling found.0) × (found.1 ≡ is_built word.now)) }
{
    match row_in(&ROWS, word) {
        None => None,
        Some(row) => Some((row.0, row.2)),
    }
}

/// No two keywords are written alike.
pub fn keywords_differ()
    ensures { (j k : AnyKeyword) → spelling j ≡ spelling k → j ≡ k }
{}
