// What holds of every office.
ghost use Rattle.std.specs.Prelude.{◌≡◌};
ghost use Rattle.protocol.specs.Promises.{ExactlyOnceAloneAndHelped, HelpIsSooner, EveryTurnHasOneOutcome, FilingIsNeverRefused, ARunIsItsTurns, ReadsDecide};
ghost use Rattle.protocol.specs.Patience.{AlwaysCallsAtPatience};
ghost use Rattle.protocol.specs.Working.{IdleWithNothingToDo, AllIdleIsAllDone, SettledIsSettled, FirstToCallIsFirst, LeftAloneItFinishes};
ghost use Rattle.protocol.specs.WorkedRun.{AWorkedRun, HelpIsNoSooner};

const LAST_KIND: u8 = 8;

// The kinds of turns go from 0 to this one. They stay numbers, since a turn answers four of them and the rules are written
// over them. Whatever calls are made since its opening, an office keeps the laws named here.
pub fn last_kind() -> u8
    ensures kind { result ≡ 8 }
    ensures promise { ExactlyOnceAloneAndHelped }
    ensures sooner { HelpIsSooner }
    ensures no_sooner { HelpIsNoSooner }
    ensures one_outcome { EveryTurnHasOneOutcome }
    ensures filing { FilingIsNeverRefused }
    ensures patience { AlwaysCallsAtPatience }
    ensures idle { IdleWithNothingToDo }
    ensures done { AllIdleIsAllDone }
    ensures settled { SettledIsSettled }
    ensures first { FirstToCallIsFirst }
    ensures alone { LeftAloneItFinishes }
    ensures run { ARunIsItsTurns }
    ensures reads { ReadsDecide }
    ensures worked { AWorkedRun }
{
    LAST_KIND
}
