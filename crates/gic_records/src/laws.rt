//! What is a record, and how far records are read, by examples, each the contract of a function that does nothing.
ghost use Rattle.std.specs.Prelude.{◌≡◌, ◌∷◌, [], codes};
ghost use Rattle.gic_records.specs.Records.{records_of};
ghost use Rattle.gic_records.specs.Wide.{up_to_wide};

/// Which bytes of a text are records, and which are no part of one.
pub fn odd_texts_law()
    ensures no_bytes { records_of [] ≡ [] }
    ensures blank_lines { records_of (codes "\n\r\na,b\n\n\nc\n") ≡ (codes "a" ∷ codes "b" ∷ []) ∷ (codes "c" ∷ []) ∷ [] }
    ensures last_line_without_its_end { records_of (codes "a\nb") ≡ (codes "a" ∷ []) ∷ (codes "b" ∷ []) ∷ [] }
    ensures carriage_return_alone { records_of (codes "a\rb") ≡ (codes "a" ∷ []) ∷ (codes "b" ∷ []) ∷ [] }
    ensures quoted_field { records_of (codes "\"a\",\"b,\n\"\"c\"") ≡ (codes "a" ∷ codes "b,\n\"c" ∷ []) ∷ [] }
    ensures spaces_stay { records_of (codes " a, b") ≡ (codes " a" ∷ codes " b" ∷ []) ∷ [] }
    ensures empty_fields { records_of (codes ",") ≡ ([] ∷ [] ∷ []) ∷ [] }
    // The three bytes are a byte order mark.
    ensures mark_at_the_start { records_of (239 ∷ 187 ∷ 191 ∷ codes "a") ≡ (codes "a" ∷ []) ∷ [] }
{}

/// How far the records of a text are read.
pub fn wide_records_law()
    ensures none { up_to_wide [] ≡ [] }
    ensures four_fields { up_to_wide (records_of (codes "a,b,c,d\ne\n")) ≡ (codes "a" ∷ codes "b" ∷ codes "c" ∷ codes "d" ∷ []) ∷ (codes "e" ∷ []) ∷ [] }
    ensures five_fields { up_to_wide (records_of (codes "a\nb,c,d,e,f\ng\n")) ≡ (codes "a" ∷ []) ∷ (codes "b" ∷ codes "c" ∷ codes "d" ∷ codes "e" ∷ codes "f" ∷ []) ∷ [] }
    ensures more_fields { up_to_wide (records_of (codes ",,,,,,,\na\n")) ≡ ([] ∷ [] ∷ [] ∷ [] ∷ [] ∷ []) ∷ [] }
    ensures commas_in_quotes { up_to_wide (records_of (codes "\",,,,,\",a\nb\n")) ≡ (codes ",,,,," ∷ codes "a" ∷ []) ∷ (codes "b" ∷ []) ∷ [] }
{}
