//! Laws of bridges, and of what an edit changes in the present.

ghost use Rattle.retro_base.specs.BridgeLaws.{WeightsCountTheDead, SumsAreNeverNegative, BridgesAreZeros, DeadComeFirst};
ghost use Rattle.retro_base.specs.CarriedLaws.{GivingIsAccepted, OneIsCarried, PresentsDifferByOne, AddingCarriesOn, MissingStaysFromBridge};
ghost use Rattle.retro_base.specs.BridgeTableLaws.{AddedEntryGains, CutTakeGains, AddedTakeLoses, CutDeadLoses, CutSurvivorLoses};
ghost use Rattle.retro_base.specs.MarkedChangeLaws.{MarksTellTheChange};
ghost use Rattle.retro_base.specs.GivingLaws.{AddingRowReplays, TakingRowCanGo};
ghost use Rattle.retro_base.specs.ChangeLaws.{OneBridgeIsStated, OneChangeOfPq, OneChangeOfOthers};

/// A law: the weights up to a place count the entries that are held there and do not survive. So the
/// sum is never below 0, and a place is a bridge exactly where it is 0.
pub fn weights_count_the_dead()
    ensures count { WeightsCountTheDead }
    ensures never_negative { SumsAreNeverNegative }
    ensures bridges { BridgesAreZeros }
{}

/// A law: of the entries that are held together, each dead one comes before each survivor.
pub fn dead_come_first()
    ensures { DeadComeFirst }
{}

/// A law: an edit that puts in a row that adds, or takes out one that takes, is accepted. After an
/// accepted edit the states differ by one entry at each place, and so do the presents.
pub fn one_entry_is_carried()
    ensures giving { GivingIsAccepted }
    ensures one { OneIsCarried }
    ensures presents { PresentsDifferByOne }
{}

/// A law: which entry is carried along changes at a row that takes and nowhere else; one that is
/// missing stays the same from a bridge on.
pub fn carried_entry_changes_at_takes()
    ensures adding { AddingCarriesOn }
    ensures missing { MissingStaysFromBridge }
{}

/// A law: the greatest dead entry from the last bridge on is gained where a row that takes is cut; so
/// it is where an entry is added, unless the new one is greater.
pub fn greatest_from_bridge_is_gained()
    ensures added_entry { AddedEntryGains }
    ensures cut_take { CutTakeGains }
{}

/// A law: the least survivor from before the first bridge is lost where a row that takes is added, and
/// where one is cut whose entry is dead; where there is none the edit is refused. One that survives is
/// lost where its row is cut.
pub fn least_before_bridge_is_lost()
    ensures added_take { AddedTakeLoses }
    ensures cut_dead { CutDeadLoses }
    ensures cut_survivor { CutSurvivorLoses }
{}

/// A law: an edit states one bridge, and an accepted edit has one change. The functions of the
/// definitions name them.
pub fn one_change_is_named()
    ensures bridge { OneBridgeIsStated }
    ensures of_pq { OneChangeOfPq }
    ensures of_others { OneChangeOfOthers }
{}

/// A law: what is read off rows that are marked by their survivors is the change of the edit, or none exactly where the
/// edit is refused. A bridge and the entry that is taken from there are the whole change.
pub fn marks_tell_the_change()
    ensures { MarksTellTheChange }
{}

/// A law: rows that replay whole still do once a row that adds is put in anywhere, or one that takes is taken out,
/// whatever their kind.
pub fn giving_rows_replay()
    ensures adding { AddingRowReplays }
    ensures taking { TakingRowCanGo }
{}
