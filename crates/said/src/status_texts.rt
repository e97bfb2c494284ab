//! Texts of the help, made of the pages by tools/make/help.
use crate::texts::Topic;

/// A status of the taximeter.
fn taxi_status_0() -> Topic {
    Topic {
        names: "0",
        text: "status 0\nwhat to do: nothing: the output is whole\ncommands: all\nmore: docs/use/COMMANDS.md\n",
    }
}

/// A status of the taximeter.
fn taxi_status_1() -> Topic {
    Topic {
        names: "1|BAD WORDS",
        text: "status 1, printed last: BAD WORDS\nwhat to do: see which word taxi says is off, and taxi help\n\
commands: all\nmore: docs/use/COMMANDS.md\n",
    }
}

/// A status of the taximeter.
fn taxi_status_2() -> Topic {
    Topic {
        names: "2|BAD TARIFF|BAD OTHER",
        text: "status 2, printed last: BAD TARIFF .., BAD OTHER ..\nwhat to do: mend the first tariff, or the \
second; taxi help FAULT and docs/TARIFF.md say what the fault is\ncommands: check, faults, form, \
tables, lines, rates, near, compare, fare, seal, run, bench, explain, story\nmore: \
docs/use/COMMANDS.md\n",
    }
}

/// A status of the taximeter.
fn taxi_status_3() -> Topic {
    Topic {
        names: "3|BAD DRIVE",
        text: "status 3, printed last: BAD DRIVE ..\nwhat to do: mend the line. run has carried out what stands \
before it, so give it only the rest, with a U before it\ncommands: fare, run, bench, explain, \
story\nmore: docs/use/COMMANDS.md\n",
    }
}

/// A status of the taximeter.
fn taxi_status_4() -> Topic {
    Topic {
        names: "4|NOT SEALED",
        text: "status 4, printed last: NOT SEALED\nwhat to do: seal the store, or go to the folder where it \
lies\ncommands: run, totals, sealed, bench, port, mark, shifts\nmore: docs/use/COMMANDS.md\n",
    }
}

/// A status of the taximeter.
fn taxi_status_5() -> Topic {
    Topic {
        names: "5|BAD STORE",
        text: "status 5, printed last: BAD STORE ..\nwhat to do: keep a copy of taxi.store, and see \"A store \
is damaged\"\ncommands: seal, run, totals, sealed, bench, port, mark, shifts\nmore: \
docs/use/COMMANDS.md\n",
    }
}

/// A status of the taximeter.
fn taxi_status_6() -> Topic {
    Topic {
        names: "6|WRONG TARIFF",
        text: "status 6, printed last: WRONG TARIFF ..\nwhat to do: take the sealed tariff, or seal with the \
new one\ncommands: run, bench\nmore: docs/use/COMMANDS.md\n",
    }
}

/// A status of the taximeter.
fn taxi_status_7() -> Topic {
    Topic {
        names: "7|READ FAULT",
        text: "status 7, printed last: READ FAULT\nwhat to do: see that the file is there and may be read\n\
commands: those that read a file\nmore: docs/use/COMMANDS.md\n",
    }
}

/// A status of the taximeter.
fn taxi_status_8() -> Topic {
    Topic {
        names: "8",
        text: "status 8\nwhat to do: see what taxi names: an output that is closed, full, or a store or a log \
itself; a store that is short, in use or can't be written. Don't run the same drive again: see \
\"A run that broke off\" and \"Status 8 and the store\"\ncommands: all\nmore: \
docs/use/COMMANDS.md\n",
    }
}

/// A status of the taximeter.
fn taxi_status_9() -> Topic {
    Topic {
        names: "9|BAD PARAMS",
        text: "status 9, printed last: BAD PARAMS ..\nwhat to do: mend the line, or add the key that is missing \
(docs/FORMATS.md)\ncommands: seal, explain, story\nmore: docs/use/COMMANDS.md\n",
    }
}

/// A status of the taximeter.
fn taxi_status_10() -> Topic {
    Topic {
        names: "10|BAD READINGS",
        text: "status 10, printed last: BAD READINGS ..\nwhat to do: mend that row; empty rows don't count \
(docs/FORMATS.md)\ncommands: bench\nmore: docs/use/COMMANDS.md\n",
    }
}

/// A status of the taximeter.
fn taxi_status_11() -> Topic {
    Topic {
        names: "11",
        text: "status 11, printed last: the report, or what differs\nwhat to do: look at the hirings whose \
verdict isn't PASS, or at the two lines\ncommands: bench, compare\nmore: docs/use/COMMANDS.md\n",
    }
}

/// A status of the taximeter.
fn taxi_status_12() -> Topic {
    Topic {
        names: "12|NO MEMORY",
        text: "status 12, printed last: NO MEMORY\nwhat to do: nothing was written; try again with more \
memory\ncommands: all; totals, sealed, port, mark and offsets only if the words have no room\n\
more: docs/use/COMMANDS.md\n",
    }
}

/// A status of the taximeter.
fn taxi_status_13() -> Topic {
    Topic {
        names: "13|TRIP HELD",
        text: "status 13, printed last: TRIP HELD\nwhat to do: end the trip, and seal then: \"A supply that is \
lost\"\ncommands: seal\nmore: docs/use/COMMANDS.md\n",
    }
}

/// A status of the taximeter.
fn taxi_status_14() -> Topic {
    Topic {
        names: "14|SEAL ENDED",
        text: "status 14, printed last: SEAL ENDED\nwhat to do: begin a new folder: the store was sealed 10^15 \
times\ncommands: seal\nmore: docs/use/COMMANDS.md\n",
    }
}

/// A status of the taximeter.
fn taxi_status_15() -> Topic {
    Topic {
        names: "15|OTHER DECIMALS",
        text: "status 15, printed last: OTHER DECIMALS ..\nwhat to do: write the tariff with the decimals of \
the store\ncommands: seal\nmore: docs/use/COMMANDS.md\n",
    }
}

/// A status of the taximeter.
fn taxi_status_16() -> Topic {
    Topic {
        names: "16|BAD FRAME",
        text: "status 16, printed last: BAD FRAME ..\nwhat to do: look at the byte of that place, counted from \
0. What stands before it was answered\ncommands: port\nmore: docs/use/COMMANDS.md\n",
    }
}

/// A status of the taximeter.
fn taxi_status_17() -> Topic {
    Topic {
        names: "17|BAD RULES",
        text: "status 17, printed last: BAD RULES ..\nwhat to do: mend the fault (docs/FORMATS.md)\ncommands: \
offsets\nmore: docs/use/COMMANDS.md\n",
    }
}

/// A status of the taximeter.
fn taxi_status_18() -> Topic {
    Topic {
        names: "18|BAD BOOK",
        text: "status 18, printed last: BAD BOOK ..\nwhat to do: find the case of that line in \
docs/use/SHIFT_BOOK.md\ncommands: shifts\nmore: docs/use/COMMANDS.md\n",
    }
}

/// A status of the taximeter.
fn taxi_status_19() -> Topic {
    Topic {
        names: "125",
        text: "status 125\nwhat to do: see the last lines: nothing was built, FOLDER can't be entered, or --now \
built nothing\ncommands: a checkout's scripts alone\nmore: docs/use/COMMANDS.md\n",
    }
}

/// A status of the taximeter.
fn taxi_status_20() -> Topic {
    Topic {
        names: "126",
        text: "status 126\nwhat to do: the program could not be started, and nothing was carried out: in a \
checkout remove what standard error names, and the next call builds it anew; where it is \
installed, install it anew\ncommands: all\nmore: docs/use/COMMANDS.md\n",
    }
}

/// A status of the taximeter.
fn taxi_status_21() -> Topic {
    Topic {
        names: "127",
        text: "status 127\nwhat to do: as 126\ncommands: all\nmore: docs/use/COMMANDS.md\n",
    }
}

/// A status of the taximeter.
fn taxi_status_22() -> Topic {
    Topic {
        names: "126|127|129|130|131|132|133|134|135|136|137|138|139|140|141|142|143|144|145|146|147|148|149|150|151|152|153|154|155|156|157|158|159",
        text: "status above 125\nwhat to do: the program was ended from outside: the status is 128 and the \
signal's number, 130 by Ctrl-C, 137 by a kill. After run see \"A run that broke off\"; else type \
the command again\ncommands: all\nmore: docs/use/COMMANDS.md\n",
    }
}

/// Each of these by its place.
pub(crate) fn taxi_status(place: usize) -> Option<Topic> {
    match place {
        0 => Some(taxi_status_0()),
        1 => Some(taxi_status_1()),
        2 => Some(taxi_status_2()),
        3 => Some(taxi_status_3()),
        4 => Some(taxi_status_4()),
        5 => Some(taxi_status_5()),
        6 => Some(taxi_status_6()),
        7 => Some(taxi_status_7()),
        8 => Some(taxi_status_8()),
        9 => Some(taxi_status_9()),
        10 => Some(taxi_status_10()),
        11 => Some(taxi_status_11()),
        12 => Some(taxi_status_12()),
        13 => Some(taxi_status_13()),
        14 => Some(taxi_status_14()),
        15 => Some(taxi_status_15()),
        16 => Some(taxi_status_16()),
        17 => Some(taxi_status_17()),
        18 => Some(taxi_status_18()),
        19 => Some(taxi_status_19()),
        20 => Some(taxi_status_20()),
        21 => Some(taxi_status_21()),
        22 => Some(taxi_status_22()),
        _ => None,
    }
}

/// A status of the hiring log.
fn log_status_0() -> Topic {
    Topic {
        names: "0|FILED|show|rows",
        text: "status 0, printed last: FILED n; none of show and rows\nwhat to do: nothing: the roll was read \
to its end, or the log was shown whole\nmore: docs/use/HIRING_LOG.md\n",
    }
}

/// A status of the hiring log.
fn log_status_1() -> Topic {
    Topic {
        names: "1|BAD WORDS",
        text: "status 1, printed last: BAD WORDS\nwhat to do: see hiring_log help\nmore: \
docs/use/HIRING_LOG.md\n",
    }
}

/// A status of the hiring log.
fn log_status_2() -> Topic {
    Topic {
        names: "2|BAD LOG",
        text: "status 2, printed last: BAD LOG s\nwhat to do: keep a copy of taxi.log: no cut of the power \
leaves this (docs/STORE.md)\nmore: docs/use/HIRING_LOG.md\n",
    }
}

/// A status of the hiring log.
fn log_status_3() -> Topic {
    Topic {
        names: "3|BROKEN LOG",
        text: "status 3, printed last: BROKEN LOG\nwhat to do: keep a copy, move the file away, and file the \
rolls again\nmore: docs/use/HIRING_LOG.md\n",
    }
}

/// A status of the hiring log.
fn log_status_4() -> Topic {
    Topic {
        names: "4|OTHER TAXI",
        text: "status 4, printed last: OTHER TAXI j\nwhat to do: see the receipt at place j of the roll, \
counted from 1: it is of another taxi, which has its own folder and roll. Those before it are \
filed\nmore: docs/use/HIRING_LOG.md\n",
    }
}

/// A status of the hiring log.
fn log_status_5() -> Topic {
    Topic {
        names: "5|ROLL TOO LONG",
        text: "status 5, printed last: ROLL TOO LONG\nwhat to do: part the roll; what was read of it is filed, \
or printed by rows or listed\nmore: docs/use/HIRING_LOG.md\n",
    }
}

/// A status of the hiring log.
fn log_status_6() -> Topic {
    Topic {
        names: "7|READ FAULT",
        text: "status 7, printed last: READ FAULT\nwhat to do: see that the roll is there and may be read; what \
was read of it is filed, or printed by rows or listed\nmore: docs/use/HIRING_LOG.md\n",
    }
}

/// A status of the hiring log.
fn log_status_7() -> Topic {
    Topic {
        names: "8",
        text: "status 8\nwhat to do: see what hiring_log names: an output that is closed, full, or a store or a \
log itself; a log that is short, in use or can't be written. After a failure of the disk, mount \
it anew first\nmore: docs/use/HIRING_LOG.md\n",
    }
}

/// A status of the hiring log.
fn log_status_8() -> Topic {
    Topic {
        names: "12",
        text: "status 12\nwhat to do: try again with more memory: nothing was done\nmore: \
docs/use/HIRING_LOG.md\n",
    }
}

/// A status of the hiring log.
fn log_status_9() -> Topic {
    Topic {
        names: "125",
        text: "status 125\nwhat to do: see the last lines: the program was not proved and built\nmore: \
docs/use/HIRING_LOG.md\n",
    }
}

/// A status of the hiring log.
fn log_status_10() -> Topic {
    Topic {
        names: "126|127|129|130|131|132|133|134|135|136|137|138|139|140|141|142|143|144|145|146|147|148|149|150|151|152|153|154|155|156|157|158|159",
        text: "status above 125\nwhat to do: the program was ended from outside: the status is 128 and the \
signal's number. Type the command again\nmore: docs/use/HIRING_LOG.md\n",
    }
}

/// Each of these by its place.
pub(crate) fn log_status(place: usize) -> Option<Topic> {
    match place {
        0 => Some(log_status_0()),
        1 => Some(log_status_1()),
        2 => Some(log_status_2()),
        3 => Some(log_status_3()),
        4 => Some(log_status_4()),
        5 => Some(log_status_5()),
        6 => Some(log_status_6()),
        7 => Some(log_status_7()),
        8 => Some(log_status_8()),
        9 => Some(log_status_9()),
        10 => Some(log_status_10()),
        _ => None,
    }
}
