// The laws of every book: the relations in words say exactly what the definitions compute.
ghost use Rattle.book.specs.Pile.{Piled};
ghost use Rattle.book.specs.Laws.{NextExact, FilingExact, StrikingExact, TakenBack};

// What comes next, filing and striking, each in words and by its definition; and that an entry filed and struck again leaves the book as it was.
pub fn laws_hold()
    ensures next { NextExact }
    ensures filing { FilingExact }
    ensures striking { StrikingExact }
    ensures back { TakenBack }
{}

// Of two layers over any book: what is on either sheet is recalled, and what is on neither is as in the book below.
pub fn piles_hold()
    ensures piled { Piled }
{}
