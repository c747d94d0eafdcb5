//! Laws of names. Each function does nothing: its contract is the law that the sentence above it tells.

ghost use Rattle.std.specs.Prelude.{◌≡◌, List, false, map};
ghost use Rattle.mf_model.specs.Institution.{Institution};
ghost use Rattle.mf_model.specs.Run.{Line, answer, answers, last, next};
ghost use Rattle.mf_unnamed.specs.Unnamed.{shows_name, unnamed, unnamed_answer, unnamed_line};

/// The names of clients and staff matter to no reply but those that show one. Two institutions that differ in such
/// names alone, and in their journals, are asked for the same, where the names of new clients and staff may differ
/// too. They give the same answer to each request whose answer shows no name, and afterwards they still differ in
/// names alone. So over whole runs all answers are the same but for the names in them.
pub fn names_matter_to_no_other_reply()
    ensures answer { (i j : Institution) (l m : Line) → unnamed i ≡ unnamed j → unnamed_line l ≡ unnamed_line m →
        shows_name (answer l i) ≡ false → answer l i ≡ answer m j }
    ensures next { (i j : Institution) (l m : Line) → unnamed i ≡ unnamed j → unnamed_line l ≡ unnamed_line m →
        unnamed (next l i) ≡ unnamed (next m j) }
    ensures answers { (i j : Institution) (ls ms : List Line) → unnamed i ≡ unnamed j →
        map unnamed_line ls ≡ map unnamed_line ms →
        map unnamed_answer (answers ls i) ≡ map unnamed_answer (answers ms j) }
    ensures last { (i j : Institution) (ls ms : List Line) → unnamed i ≡ unnamed j →
        map unnamed_line ls ≡ map unnamed_line ms → unnamed (last ls i) ≡ unnamed (last ms j) }
{}
