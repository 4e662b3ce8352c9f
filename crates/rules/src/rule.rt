// The fifteen rules, in the order of their codes.

#[derive(Clone, Copy)]
pub enum Rule {
    CiteRule,
    CiteSaying,
    Not,
    AndTrue,
    AndFalse,
    SaysTrue,
    SaysFalse,
    SpeaksForTrue,
    SpeaksForFalse,
    BothLinked,
    QuotingLinked,
    IntoBoth,
    IntoQuoting,
    FactsClash,
    LinksClash,
}
