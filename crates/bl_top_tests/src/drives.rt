//! Drives against lists of plants: what is shown, what each plant was asked and told, and which are left, in which order.

use crate::call::{Case, Command, smooth};
use crate::end::End;
use crate::faults::failing;
use crate::plants::{Left, Made, Play, plays};
use std::test::Fail;

const VALVE: &str = "@[EntryPoint] activity M (level: int32)(valve: int32) repeat \
    if level < 500 then valve = 10 else valve = 0 end await true end end";

const FOLLOW: &str =
    "@[EntryPoint] activity M (a: int32)(o: int32) repeat o = a await true end end";

const MINUS: &str =
    "@[EntryPoint] activity M (a: int32, b: int32)(o: int32) repeat o = a - b await true end end";

fn drive(text: &'static str, words: &'static [&'static str]) -> Case<'static> {
    smooth(Command::Drive(words), text.as_bytes(), "")
}

/// The ramp is behind a plant that isn't named.
const RAMP: Play = Play {
    plants: &[Made::Tank, Made::Ramp],
    calls: 1,
    end: End {
        status: 0,
        line: "",
        out: "tick,valve\n1,10\n2,10\n",
    },
    left: &[Left(1, &[], &[]), Left(2, &[&[0], &[1]], &[&[10], &[10]])],
};

#[test]
fn a_ramp_is_asked_and_told(rt: HostRuntime) -> Result<(), Fail> {
    let case = drive(VALVE, &["drive", "text", "2", "ramp"]);
    assert!(rt; plays(rt.alloc(), &case, &RAMP)?);
    Ok(())
}

/// From tick 41 on the level is the last that the tank gave, 497.
const TANK: Play = Play {
    plants: &[Made::Tank, Made::Ramp],
    calls: 1,
    end: End {
        status: 0,
        line: "plant 1 finished after 40 rows\n",
        out: "tick,valve\n\
            1,0\n2,10\n3,10\n4,10\n5,0\n6,10\n7,10\n8,0\n9,10\n10,10\n\
            11,0\n12,10\n13,10\n14,10\n15,0\n16,10\n17,10\n18,0\n19,10\n20,10\n\
            21,0\n22,10\n23,10\n24,10\n25,0\n26,10\n27,10\n28,0\n29,10\n30,10\n\
            31,0\n32,10\n33,10\n34,10\n35,0\n36,10\n37,10\n38,0\n39,10\n40,10\n\
            41,10\n42,10\n43,10\n44,10\n45,10\n46,10\n47,10\n48,10\n49,10\n50,10\n",
    },
    left: &[Left(2, &[], &[])],
};

#[test]
fn a_tank_that_has_finished_is_dropped(rt: HostRuntime) -> Result<(), Fail> {
    let case = drive(VALVE, &["drive", "text", "50", "tank"]);
    assert!(rt; plays(rt.alloc(), &case, &TANK)?);
    Ok(())
}

/// In its third tick.
const FAILS: Play = Play {
    plants: &[Made::Failing(5, 1, &[&[600], &[400]])],
    calls: 1,
    end: End {
        status: 9,
        line: "plant 5 failed\n",
        out: "tick,valve\n1,0\n2,10\n",
    },
    left: &[Left(5, &[&[600], &[400]], &[&[0], &[10]])],
};

#[test]
fn a_plant_that_fails_stays(rt: HostRuntime) -> Result<(), Fail> {
    let case = drive(VALVE, &["drive", "text", "3", "5"]);
    assert!(rt; plays(rt.alloc(), &case, &FAILS)?);
    Ok(())
}

/// A number past 32 bits.
const LARGE: Play = Play {
    plants: &[Made::Script(5, 1, &[&[2_147_483_648]])],
    calls: 1,
    end: End {
        status: 10,
        line: "plant shape: column 1 number 2147483648\n",
        out: "tick,valve\n",
    },
    left: &[Left(5, &[&[2_147_483_648]], &[])],
};

#[test]
fn a_number_is_too_large(rt: HostRuntime) -> Result<(), Fail> {
    let case = drive(VALVE, &["drive", "text", "1", "5"]);
    assert!(rt; plays(rt.alloc(), &case, &LARGE)?);
    Ok(())
}

/// The level is 0.
const NOTHING: Play = Play {
    plants: &[Made::Script(5, 1, &[])],
    calls: 1,
    end: End {
        status: 0,
        line: "plant 5 finished after 0 rows\n",
        out: "tick,valve\n1,10\n2,10\n",
    },
    left: &[],
};

#[test]
fn a_plant_finishes_at_once(rt: HostRuntime) -> Result<(), Fail> {
    let case = drive(VALVE, &["drive", "text", "2", "5"]);
    assert!(rt; plays(rt.alloc(), &case, &NOTHING)?);
    Ok(())
}

/// A ramp that isn't named, a script that finishes in the second tick, and one that fails in it.
const PAIR: &[Made] = &[
    Made::Ramp,
    Made::Script(5, 1, &[&[1]]),
    Made::Failing(6, 1, &[&[2]]),
];

/// How it is left where the one that finishes is asked first.
const PAIR_LEFT: &[Left] = &[Left(2, &[], &[]), Left(6, &[&[2]], &[&[-1]])];

/// The one that finishes is asked before the one that fails.
const FINISHES_FIRST: Play = Play {
    plants: PAIR,
    calls: 1,
    end: End {
        status: 9,
        line: "plant 5 finished after 1 rows\nplant 6 failed\n",
        out: "tick,o\n1,-1\n",
    },
    left: PAIR_LEFT,
};

/// It isn't asked behind the one that fails.
const FAILS_FIRST: Play = Play {
    plants: PAIR,
    calls: 1,
    end: End {
        status: 9,
        line: "plant 6 failed\n",
        out: "tick,o\n1,1\n",
    },
    left: &[
        Left(2, &[], &[]),
        Left(5, &[&[1]], &[&[1]]),
        Left(6, &[&[2]], &[&[1]]),
    ],
};

#[test]
fn one_finishes_and_one_fails_in_a_tick(rt: HostRuntime) -> Result<(), Fail> {
    let case = drive(MINUS, &["drive", "text", "3", "5", "6"]);
    assert!(rt; plays(rt.alloc(), &case, &FINISHES_FIRST)?);
    let case = drive(MINUS, &["drive", "text", "3", "6", "5"]);
    assert!(rt; plays(rt.alloc(), &case, &FAILS_FIRST)?);
    Ok(())
}

const GUARDED: &str = "@[EntryPoint] activity M (a: int32, on: bool, b: int32)(o: int32) \
    repeat o = a await true end end";

/// In the second tick the second plant gives 2, and the ramp behind it isn't asked.
const RANGE: Play = Play {
    plants: &[
        Made::Script(5, 1, &[&[1], &[2]]),
        Made::Script(6, 1, &[&[1], &[2]]),
        Made::Ramp,
    ],
    calls: 1,
    end: End {
        status: 10,
        line: "plant shape: column 2 number 2\n",
        out: "tick,o\n1,1\n",
    },
    left: &[
        Left(5, &[&[1], &[2]], &[&[1]]),
        Left(6, &[&[1], &[2]], &[&[1]]),
        Left(2, &[&[0]], &[&[1]]),
    ],
};

#[test]
fn a_number_is_outside_its_type_between_two_plants(rt: HostRuntime) -> Result<(), Fail> {
    let case = drive(GUARDED, &["drive", "text", "3", "5", "6", "ramp"]);
    assert!(rt; plays(rt.alloc(), &case, &RANGE)?);
    Ok(())
}

/// A name means the first plant that has it, also once that has finished.
const SAME_NAME: Play = Play {
    plants: &[
        Made::Script(5, 1, &[&[1]]),
        Made::Script(5, 1, &[&[7], &[8]]),
    ],
    calls: 1,
    end: End {
        status: 0,
        line: "plant 5 finished after 1 rows\n",
        out: "tick,o\n1,1\n2,1\n3,1\n",
    },
    left: &[Left(5, &[], &[])],
};

#[test]
fn a_later_plant_of_the_name_is_not_asked(rt: HostRuntime) -> Result<(), Fail> {
    let case = drive(FOLLOW, &["drive", "text", "3", "5"]);
    assert!(rt; plays(rt.alloc(), &case, &SAME_NAME)?);
    Ok(())
}

const DIGITS: &str = "@[EntryPoint] activity M (a: int32, b: int32, c: int32)(o: int32) \
    repeat o = a * 100 + b * 10 + c await true end end";

/// The plants stand in the list in another order than in the words. Both columns of the one that has finished stay.
const WIDE: Play = Play {
    plants: &[Made::Ramp, Made::Script(5, 2, &[&[1, 2], &[3, 4]])],
    calls: 1,
    end: End {
        status: 0,
        line: "plant 5 finished after 2 rows\n",
        out: "tick,o\n1,120\n2,341\n3,342\n",
    },
    left: &[Left(2, &[&[0], &[1], &[2]], &[&[120], &[341], &[342]])],
};

#[test]
fn a_plant_has_two_columns(rt: HostRuntime) -> Result<(), Fail> {
    let case = drive(DIGITS, &["drive", "text", "3", "5", "ramp"]);
    assert!(rt; plays(rt.alloc(), &case, &WIDE)?);
    Ok(())
}

const LAMP: &str = "@[EntryPoint] activity M ()(on: bool) \
    repeat on = true await true on = false await true end end";

const NARROW: Play = Play {
    plants: &[Made::Script(5, 0, &[&[], &[]])],
    calls: 1,
    end: End {
        status: 0,
        line: "",
        out: "tick,on\n1,true\n2,false\n",
    },
    left: &[Left(5, &[&[], &[]], &[&[1], &[0]])],
};

#[test]
fn a_plant_has_no_column(rt: HostRuntime) -> Result<(), Fail> {
    let case = drive(LAMP, &["drive", "text", "2", "5"]);
    assert!(rt; plays(rt.alloc(), &case, &NARROW)?);
    Ok(())
}

const SHARE: &str =
    "@[EntryPoint] activity M (a: int32)(o: int32) repeat o = 10 / a await true end end";

/// The tick that traps is told to no plant.
const TRAPS: Play = Play {
    plants: &[Made::Script(5, 1, &[&[5], &[0], &[1]])],
    calls: 1,
    end: End {
        status: 6,
        line: "",
        out: "tick,o\n1,2\ntrap\n",
    },
    left: &[Left(5, &[&[5], &[0]], &[&[2]])],
};

const SHORT: &str = "@[EntryPoint] activity M (a: int32)(o: int32) o = a await true o = a end";

/// The last row is told.
const ENDS: Play = Play {
    plants: &[Made::Script(5, 1, &[&[5], &[7], &[9]])],
    calls: 1,
    end: End {
        status: 0,
        line: "",
        out: "tick,o\n1,5\n2,7\nended\n",
    },
    left: &[Left(5, &[&[5], &[7]], &[&[5], &[7]])],
};

#[test]
fn a_run_is_over_before_its_ticks(rt: HostRuntime) -> Result<(), Fail> {
    let case = drive(SHARE, &["drive", "text", "3", "5"]);
    assert!(rt; plays(rt.alloc(), &case, &TRAPS)?);
    let case = drive(SHORT, &["drive", "text", "3", "5"]);
    assert!(rt; plays(rt.alloc(), &case, &ENDS)?);
    Ok(())
}

/// A ramp goes on where the call before left it.
const GOES_ON: Play = Play {
    plants: &[Made::Ramp],
    calls: 2,
    end: End {
        status: 0,
        line: "",
        out: "tick,o\n1,2\n2,3\n",
    },
    left: &[Left(2, &[&[0], &[1], &[2], &[3]], &[&[0], &[1], &[2], &[3]])],
};

/// A script that has one row for the second call.
const ONE_MORE: Play = Play {
    plants: &[Made::Script(2, 1, &[&[1], &[2], &[3]])],
    calls: 2,
    end: End {
        status: 0,
        line: "plant 2 finished after 1 rows\n",
        out: "tick,o\n1,3\n2,3\n",
    },
    left: &[],
};

/// A script that has none, so its column is 0.
const NO_MORE: Play = Play {
    plants: &[Made::Script(2, 1, &[&[1], &[2]])],
    calls: 2,
    end: End {
        status: 0,
        line: "plant 2 finished after 0 rows\n",
        out: "tick,o\n1,0\n2,0\n",
    },
    left: &[],
};

#[test]
fn a_list_is_driven_twice(rt: HostRuntime) -> Result<(), Fail> {
    let case = drive(FOLLOW, &["drive", "text", "2", "ramp"]);
    assert!(rt; plays(rt.alloc(), &case, &GOES_ON)?);
    assert!(rt; plays(rt.alloc(), &case, &ONE_MORE)?);
    assert!(rt; plays(rt.alloc(), &case, &NO_MORE)?);
    Ok(())
}

/// A call that asks no plant.
struct Idle {
    text: &'static str,
    command: Command,
    end: End,
}

const IDLE: [Idle; 6] = [
    Idle {
        text: VALVE,
        command: Command::Drive(&["drive", "text", "2", "5", "5"]),
        end: End {
            status: 10,
            line: "plant shape: twice 5\n",
            out: "",
        },
    },
    Idle {
        text: VALVE,
        command: Command::Drive(&["drive", "text", "2", "5", "6"]),
        end: End {
            status: 10,
            line: "plant shape: absent 6\n",
            out: "",
        },
    },
    Idle {
        text: VALVE,
        command: Command::Drive(&["drive", "text", "2", "tank", "5"]),
        end: End {
            status: 10,
            line: "plant shape: width 2 of 1\n",
            out: "",
        },
    },
    Idle {
        text: VALVE,
        command: Command::Drive(&["drive", "text", "0", "5"]),
        end: End {
            status: 0,
            line: "",
            out: "tick,valve\n",
        },
    },
    Idle {
        text: "",
        command: Command::Drive(&["drive", "text", "2", "5"]),
        end: End {
            status: 1,
            line: "rule 17 Entry 0-0\n",
            out: "",
        },
    },
    Idle {
        text: VALVE,
        command: Command::Run,
        end: End {
            status: 0,
            line: "",
            out: "tick,valve\n1,10\n",
        },
    },
];

const IDLE_PLANTS: &[Made] = &[Made::Script(5, 1, &[&[1]]), Made::Tank];

const IDLE_LEFT: &[Left] = &[Left(5, &[], &[]), Left(1, &[], &[])];

#[test]
fn no_plant_is_asked(rt: HostRuntime) -> Result<(), Fail> {
    for idle in IDLE.iter() {
        let case = smooth(idle.command, idle.text.as_bytes(), "tick,level\n1,0\n");
        let play = Play {
            plants: IDLE_PLANTS,
            calls: 1,
            end: idle.end,
            left: IDLE_LEFT,
        };
        assert!(rt; plays(rt.alloc(), &case, &play)?);
    }
    Ok(())
}

/// The trace can't be written, and so no line tells of the plant that was dropped.
const UNWRITTEN: Play = Play {
    plants: PAIR,
    calls: 1,
    end: End {
        status: 4,
        line: "",
        out: "",
    },
    left: PAIR_LEFT,
};

/// The lines of plants that have finished come in the first write, and that of the status in the second.
const UNTOLD: Play = Play {
    plants: PAIR,
    calls: 1,
    end: End {
        status: 4,
        line: "plant 5 finished after 1 rows\n",
        out: "tick,o\n1,-1\n",
    },
    left: PAIR_LEFT,
};

#[test]
fn writes_that_fail(rt: HostRuntime) -> Result<(), Fail> {
    let mut case = drive(MINUS, &["drive", "text", "3", "5", "6"]);
    case.writes = failing(1);
    assert!(rt; plays(rt.alloc(), &case, &UNWRITTEN)?);
    let mut case = drive(MINUS, &["drive", "text", "3", "5", "6"]);
    case.notes = failing(2);
    assert!(rt; plays(rt.alloc(), &case, &UNTOLD)?);
    Ok(())
}
