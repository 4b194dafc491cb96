//! The lists of a case.
ghost use Rattle.std.specs.Prelude.{◌≡◌, ◌≤◌, length};
ghost use Rattle.gic_case.specs.ListWord.{list_word};

/// A list of a case, or the document that has them all.
#[derive(Clone, Copy, Debug, PartialEq, Eq)]
pub enum CaseList {
    Document,
    Zone,
    Substation,
    Bus,
    Line,
    Transformer,
}

impl CaseList {
    /// The key of the list in the document, by which fault lines and reports name it too, and `case` for the document
    /// itself: at most 11 bytes.
    pub fn word(self) -> &'static str
        ensures word { result.now ≡ list_word self }
        ensures size { length result.now ≤ 11 }
    {
        match self {
            CaseList::Document => "case",
            CaseList::Zone => "zone",
            CaseList::Substation => "substation",
            CaseList::Bus => "bus",
            CaseList::Line => "line",
            CaseList::Transformer => "transformer",
        }
    }
}
