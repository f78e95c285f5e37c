//! Laws over the lifetimes of a dictionary and the labels of its rows.

ghost use Rattle.std.specs.Prelude.{◌≡◌};
ghost use Rattle.order_labels.specs.LabelLaws.{least_insertions};
ghost use Rattle.retro_dictionary.specs.DictionaryLaws.{LifetimesHoldContent, SearchAnswers, EditsEndOne, InsertionsAreKept, RemovalsAreKept};
ghost use Rattle.retro_dictionary.specs.RelabellingLaw.{RelabellingIsRare};
ghost use Rattle.retro_dictionary.specs.RowLabels.{row_rule};

/// A law: at each place the pairs whose lifetimes hold the label of the row before it are the content there.
pub fn lifetimes_hold_the_content()
    ensures { LifetimesHoldContent }
{}

/// A law: each question at a place is answered by what is found of these pairs.
pub fn search_answers()
    ensures { SearchAnswers }
{}

/// A law: a row ends the lifetime of the pair that the last row before it on its key put, begins that of the pair which it
/// puts itself, and leaves all others as they are.
pub fn an_edit_ends_one_lifetime()
    ensures { EditsEndOne }
{}

/// A law: what is kept of rows is kept where a row is put in at a label between those beside its place: the row by its label,
/// and the two lifetimes that it changes, the new ones put in before the old one is taken out.
pub fn insertions_are_kept()
    ensures { InsertionsAreKept }
{}

/// A law: so it is where a row is taken out.
pub fn removals_are_kept()
    ensures { RemovalsAreKept }
{}

/// A law: where rows get their labels by the rule of a dictionary, from the empty one on or from the labels that a relabelling
/// has left, with the number of those that came since, at least 22 insertions come before the next relabelling, whatever is put in
/// and taken out. The least number is that of the width of a label and of the bound on rows.
pub fn relabelling_is_rare()
    ensures rare { RelabellingIsRare row_rule }
    ensures number { least_insertions ≡ 22 }
{}
