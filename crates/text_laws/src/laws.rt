// Laws on the first wrong line of a text. These calls do nothing: their clauses are what is proved.
ghost use Rattle.text_laws.specs.TextLaws.{LegalTextLaw, NoneWrongLaw, OneWrongLineLaw};

/// A text has at most one first wrong line, and none if each line is right.
pub fn one_wrong_line()
    ensures one { OneWrongLineLaw }
    ensures none { NoneWrongLaw }
{}

/// Each line of a text is right exactly if the text is that of a legal run.
pub fn legal_text()
    ensures legal { LegalTextLaw }
{}
