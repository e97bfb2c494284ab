//! Texts of the help, made of the pages by tools/make/help.
use crate::texts::Topic;

/// A fault of a text, with a text that has it and the same mended.
fn fault_0() -> Topic {
    Topic {
        names: "BAD TARIFF TooLong|TARIFF TooLong|TooLong|BAD OTHER TooLong",
        text: "as BAD TARIFF TooLong (docs/TARIFF.md)\nThe text has more than 65,536 bytes.\na text that has \
it:\n    # A comment of sixty-six bytes, so a thousand of it are too many.\n    .. and so on, \
1000 such lines\n    step 0.20\n    initial 3.80\n    rate 0.20 per 117.4 m, 0.20 per 25.2 s\n\
the same mended:\n    step 0.20\n    initial 3.80\n    rate 0.20 per 117.4 m, 0.20 per 25.2 s\n",
    }
}

/// A fault of a text, with a text that has it and the same mended.
fn fault_1() -> Topic {
    Topic {
        names: "BAD TARIFF Syntax|TARIFF Syntax|Syntax|BAD OTHER Syntax",
        text: "as BAD TARIFF Syntax 1 (docs/TARIFF.md)\nLine n is the first that has none of the forms of a \
line of a tariff. Here the decimals stand after a comma; they have a\npoint.\na text that has \
it:\n    step 0,20\n    initial 3.80\n    rate 0.20 per 117.4 m, 0.20 per 25.2 s\nthe same \
mended:\n    step 0.20\n    initial 3.80\n    rate 0.20 per 117.4 m, 0.20 per 25.2 s\n",
    }
}

/// A fault of a text, with a text that has it and the same mended.
fn fault_2() -> Topic {
    Topic {
        names: "BAD TARIFF NoStep|TARIFF NoStep|NoStep|BAD OTHER NoStep",
        text: "as BAD TARIFF NoStep (docs/TARIFF.md)\nThere is no `step` line, so nothing says by how much the \
display rises.\na text that has it:\n    initial 3.80\n    rate 0.20 per 117.4 m, 0.20 per 25.2 \
s\nthe same mended:\n    step 0.20\n    initial 3.80\n    rate 0.20 per 117.4 m, 0.20 per 25.2 \
s\n",
    }
}

/// A fault of a text, with a text that has it and the same mended.
fn fault_3() -> Topic {
    Topic {
        names: "BAD TARIFF StepZero|TARIFF StepZero|StepZero|BAD OTHER StepZero",
        text: "as BAD TARIFF StepZero (docs/TARIFF.md)\nThe first `step` line has the amount 0.\na text that \
has it:\n    step 0.00\n    initial 3.80\n    rate 0.20 per 117.4 m, 0.20 per 25.2 s\nthe same \
mended:\n    step 0.20\n    initial 3.80\n    rate 0.20 per 117.4 m, 0.20 per 25.2 s\n",
    }
}

/// A fault of a text, with a text that has it and the same mended.
fn fault_4() -> Topic {
    Topic {
        names: "BAD TARIFF Duplicate|TARIFF Duplicate|Duplicate|BAD OTHER Duplicate",
        text: "as BAD TARIFF Duplicate 3 (docs/TARIFF.md)\nLine n is a second `step`, `positions` or `zones` \
line, or has the number of a supplement or the date of a holiday that an\nearlier line has.\na \
text that has it:\n    step 0.20\n    supplement 1 2.00 max 4\n    supplement 1 6.50 max 1\n    \
initial 3.80\n    rate 0.20 per 117.4 m, 0.20 per 25.2 s\nthe same mended:\n    step 0.20\n    \
supplement 1 2.00 max 4\n    supplement 2 6.50 max 1\n    initial 3.80\n    rate 0.20 per 117.4 \
m, 0.20 per 25.2 s\n",
    }
}

/// A fault of a text, with a text that has it and the same mended.
fn fault_5() -> Topic {
    Topic {
        names: "BAD TARIFF TooManyLines|TARIFF TooManyLines|TooManyLines|BAD OTHER TooManyLines",
        text: "as BAD TARIFF TooManyLines 68 (docs/TARIFF.md)\nLine n is the 65th of a word that may have a \
condition, or the 256th `holiday`.\na text that has it:\n    step 0.20\n    initial 3.80\n    \
positions 2\n    rate 0.10 per 40.0 m, 0.10 per 10.0 s when position 2\n    .. and so on, 65 \
such lines\n    rate 0.20 per 117.4 m, 0.20 per 25.2 s\nthe same mended:\n    step 0.20\n    \
initial 3.80\n    positions 2\n    rate 0.10 per 40.0 m, 0.10 per 10.0 s when position 2\n    \
rate 0.20 per 117.4 m, 0.20 per 25.2 s\n",
    }
}

/// A fault of a text, with a text that has it and the same mended.
fn fault_6() -> Topic {
    Topic {
        names: "BAD TARIFF UnknownNumber|TARIFF UnknownNumber|UnknownNumber|BAD OTHER UnknownNumber",
        text: "as BAD TARIFF UnknownNumber 3 (docs/TARIFF.md)\nA condition of line n names a position above \
`positions` or a zone above `zones`; without such a line there is only 1.\na text that has it:\n    \
step 0.20\n    initial 3.80\n    rate 0.10 per 40.0 m, 0.10 per 10.0 s when zone 2\n    rate \
0.20 per 117.4 m, 0.20 per 25.2 s\nthe same mended:\n    step 0.20\n    zones 2\n    initial \
3.80\n    rate 0.10 per 40.0 m, 0.10 per 10.0 s when zone 2\n    rate 0.20 per 117.4 m, 0.20 per \
25.2 s\n",
    }
}

/// A fault of a text, with a text that has it and the same mended.
fn fault_7() -> Topic {
    Topic {
        names: "BAD TARIFF NoDefaultRate|TARIFF NoDefaultRate|NoDefaultRate|BAD OTHER NoDefaultRate",
        text: "as BAD TARIFF NoDefaultRate (docs/TARIFF.md)\nEach `rate` line has a condition, or there is \
none: if none of them holds, nothing would say what a distance costs.\na text that has it:\n    \
step 0.20\n    initial 3.80\n    rate 0.30 per 117.4 m, 0.30 per 25.2 s when time 22:00..06:00\n    \
rate 0.20 per 117.4 m, 0.20 per 25.2 s when time 06:00..22:00\nthe same mended:\n    step 0.20\n    \
initial 3.80\n    rate 0.30 per 117.4 m, 0.30 per 25.2 s when time 22:00..06:00\n    rate 0.20 \
per 117.4 m, 0.20 per 25.2 s\n",
    }
}

/// A fault of a text, with a text that has it and the same mended.
fn fault_8() -> Topic {
    Topic {
        names: "BAD TARIFF NoDefaultInitial|TARIFF NoDefaultInitial|NoDefaultInitial|BAD OTHER NoDefaultInitial",
        text: "as BAD TARIFF NoDefaultInitial (docs/TARIFF.md)\nEach `initial` line has a condition, or there \
is none: if none of them holds, nothing would say what a hiring costs.\na text that has it:\n    \
step 0.20\n    initial 4.80 when day sun\n    rate 0.20 per 117.4 m, 0.20 per 25.2 s\nthe same \
mended:\n    step 0.20\n    initial 4.80 when day sun\n    initial 3.80\n    rate 0.20 per 117.4 \
m, 0.20 per 25.2 s\n",
    }
}

/// A fault of a text, with a text that has it and the same mended.
fn fault_9() -> Topic {
    Topic {
        names: "BAD TARIFF LineAfterDefault|TARIFF LineAfterDefault|LineAfterDefault|BAD OTHER LineAfterDefault",
        text: "as BAD TARIFF LineAfterDefault 4 (docs/TARIFF.md)\nLine n may have a condition, and stands after \
a line of the same word that has none. The first line that holds\ncounts, so this one never \
would.\na text that has it:\n    step 0.20\n    initial 3.80\n    rate 0.20 per 117.4 m, 0.20 \
per 25.2 s\n    rate 0.30 per 117.4 m, 0.30 per 25.2 s when time 22:00..06:00\nthe same \
mended:\n    step 0.20\n    initial 3.80\n    rate 0.30 per 117.4 m, 0.30 per 25.2 s when time \
22:00..06:00\n    rate 0.20 per 117.4 m, 0.20 per 25.2 s\n",
    }
}

/// A fault of a text, with a text that has it and the same mended.
fn fault_10() -> Topic {
    Topic {
        names: "BAD TARIFF BadDate|TARIFF BadDate|BadDate|BAD OTHER BadDate",
        text: "as BAD TARIFF BadDate 2 (docs/TARIFF.md)\nLine n is a holiday that is no date of the years 2000 \
to 2199, or its condition has a month and date that no leap year has.\na text that has it:\n    \
step 0.20\n    holiday 2027-02-29\n    initial 3.80\n    rate 0.20 per 117.4 m, 0.20 per 25.2 \
s\nthe same mended:\n    step 0.20\n    holiday 2028-02-29\n    initial 3.80\n    rate 0.20 per \
117.4 m, 0.20 per 25.2 s\n",
    }
}

/// A fault of a text, with a text that has it and the same mended.
fn fault_11() -> Topic {
    Topic {
        names: "BAD TARIFF AmountTooBig|TARIFF AmountTooBig|AmountTooBig|BAD OTHER AmountTooBig",
        text: "as BAD TARIFF AmountTooBig 2 (docs/TARIFF.md)\nLine n has a step, a supplement or an amount of a \
rate above 1,000,000 units of the last decimal, or a hire fee, a cover or a\nminimum fare above \
99,999,999.\na text that has it:\n    step 0.20\n    supplement 1 10000.01 max 1\n    initial \
3.80\n    rate 0.20 per 117.4 m, 0.20 per 25.2 s\nthe same mended:\n    step 0.20\n    \
supplement 1 10000.00 max 1\n    initial 3.80\n    rate 0.20 per 117.4 m, 0.20 per 25.2 s\n",
    }
}

/// A fault of a text, with a text that has it and the same mended.
fn fault_12() -> Topic {
    Topic {
        names: "BAD TARIFF MeasureZero|TARIFF MeasureZero|MeasureZero|BAD OTHER MeasureZero",
        text: "as BAD TARIFF MeasureZero 3 (docs/TARIFF.md)\nLine n is a rate with a measure of 0, or its \
condition has an `after` of 0. A distance or a time that costs nothing has the\namount 0.\na \
text that has it:\n    step 0.20\n    initial 3.80\n    rate 0.20 per 117.4 m, 0.20 per 0.0 s\n\
the same mended:\n    step 0.20\n    initial 3.80\n    rate 0.20 per 117.4 m, 0.00 per 1.0 s\n",
    }
}

/// A fault of a text, with a text that has it and the same mended.
fn fault_13() -> Topic {
    Topic {
        names: "BAD TARIFF NoCommonMeasure|TARIFF NoCommonMeasure|NoCommonMeasure|BAD OTHER NoCommonMeasure",
        text: "as BAD TARIFF NoCommonMeasure (docs/TARIFF.md)\nThe common measure is above 10^18: the least \
common multiple of all metres and seconds of the `rate` lines, in decimetres and\ntenths of a \
second. `taxi near TARIFF` prints the same tariff by the nearest amounts for one pair of \
measures, which has one.\na text that has it:\n    step 0.20\n    initial 3.80\n    rate 0.20 \
per 99998.3 m, 0.20 per 99997.9 s when day sun\n    rate 0.20 per 99996.1 m, 0.20 per 99995.9 \
s\nthe same mended:\n    step 0.20\n    initial 3.80\n    rate 0.20 per 100000.0 m, 0.20 per \
100000.0 s when day sun\n    rate 0.20 per 50000.0 m, 0.20 per 25000.0 s\n",
    }
}

/// A fault of a text, with a text that has it and the same mended.
fn fault_14() -> Topic {
    Topic {
        names: "BAD TARIFF TooManyCuts|TARIFF TooManyCuts|TooManyCuts|BAD OTHER TooManyCuts",
        text: "as BAD TARIFF TooManyCuts Distance 16 (docs/TARIFF.md)\nThe conditions cut a dimension in too \
many places: days of the year or minutes of the day in more than 63, distances or times\nin more \
than 15. The last number is how many there are.\na text that has it:\n    step 0.20\n    initial \
3.80\n    rate 0.11 per 1.0 m, 0.10 per 1.0 s when after 1.0 m and not (after 2.0 m or after 3.0 \
m or after 4.0 m)\n    rate 0.12 per 1.0 m, 0.10 per 1.0 s when after 5.0 m and not (after 6.0 m \
or after 7.0 m or after 8.0 m)\n    rate 0.13 per 1.0 m, 0.10 per 1.0 s when after 9.0 m and not \
(after 10.0 m or after 11.0 m or after 12.0 m)\n    rate 0.14 per 1.0 m, 0.10 per 1.0 s when \
after 13.0 m and not (after 14.0 m or after 15.0 m or after 16.0 m)\n    rate 0.20 per 1.0 m, \
0.10 per 1.0 s\nthe same mended:\n    step 0.20\n    initial 3.80\n    rate 0.11 per 1.0 m, 0.10 \
per 1.0 s when after 1.0 m and not after 2.0 m\n    rate 0.12 per 1.0 m, 0.10 per 1.0 s when \
after 5.0 m and not after 6.0 m\n    rate 0.13 per 1.0 m, 0.10 per 1.0 s when after 9.0 m and \
not after 10.0 m\n    rate 0.14 per 1.0 m, 0.10 per 1.0 s when after 13.0 m and not after 14.0 \
m\n    rate 0.20 per 1.0 m, 0.10 per 1.0 s\n",
    }
}

/// A fault of a text, with a text that has it and the same mended.
fn fault_15() -> Topic {
    Topic {
        names: "BAD TARIFF TooManyCells|TARIFF TooManyCells|TooManyCells|BAD OTHER TooManyCells",
        text: "as BAD TARIFF TooManyCells 81648 (docs/TARIFF.md)\nThere would be more than 64,512 cells: \
positions times zones times 7 weekdays, times 2 if there are holidays, times the\nbands between \
the cuts of days, minutes, distances and times. The last number is how many there would be.\na \
text that has it:\n    step 0.20\n    positions 9\n    zones 9\n    holiday 2026-12-25\n    \
initial 3.80\n    rate 0.11 per 1.0 m, 0.10 per 1.0 s when time 01:00..02:00 or time \
03:00..04:00 or time 05:00..06:00 or time 07:00..08:00\n    rate 0.12 per 1.0 m, 0.10 per 1.0 s \
when after 1.0 m or after 2.0 m or after 3.0 m or after 4.0 m\n    rate 0.13 per 1.0 m, 0.10 per \
1.0 s when after 5.0 m or after 6.0 m or after 7.0 m\n    rate 0.20 per 1.0 m, 0.10 per 1.0 s\n\
the same mended:\n    step 0.20\n    positions 9\n    zones 9\n    initial 3.80\n    rate 0.11 \
per 1.0 m, 0.10 per 1.0 s when time 01:00..02:00 or time 03:00..04:00 or time 05:00..06:00 or \
time 07:00..08:00\n    rate 0.12 per 1.0 m, 0.10 per 1.0 s when after 1.0 m or after 2.0 m or \
after 3.0 m or after 4.0 m\n    rate 0.13 per 1.0 m, 0.10 per 1.0 s when after 5.0 m or after \
6.0 m or after 7.0 m\n    rate 0.20 per 1.0 m, 0.10 per 1.0 s\n",
    }
}

/// A fault of a text, with a text that has it and the same mended.
fn fault_16() -> Topic {
    Topic {
        names: "BAD DRIVE|DRIVE",
        text: "as BAD DRIVE 3 (docs/FORMATS.md)\nLine n is the first that is no line of a drive. Here `I 20` \
lacks the number of intervals. Fields are parted by exactly one\nblank, each line ends in LF, \
the last one too, and none has more than 80 bytes. `BAD DRIVE TOO LONG` is a drive of 2^40 \
bytes.\na text that has it:\n    U 1767225600\n    K H\n    I 20\nthe same mended:\n    U \
1767225600\n    K H\n    I 20 1\n",
    }
}

/// A fault of a text, with a text that has it and the same mended.
fn fault_17() -> Topic {
    Topic {
        names: "BAD PARAMS TooLong|PARAMS TooLong|TooLong",
        text: "as BAD PARAMS TooLong (docs/FORMATS.md)\nThe text has more than 65,536 bytes.\na text that has \
it:\n    # A comment of sixty-six bytes, so a thousand of it are too many.\n    .. and so on, \
1000 such lines\n    taxi LX-4711\n    constant 10000\n    mode single\n    hold 60\n    offset \
946684800 3600\n    secured 2025-12-01\nthe same mended:\n    taxi LX-4711\n    constant 10000\n    \
mode single\n    hold 60\n    offset 946684800 3600\n    secured 2025-12-01\n",
    }
}

/// A fault of a text, with a text that has it and the same mended.
fn fault_18() -> Topic {
    Topic {
        names: "BAD PARAMS Unknown|PARAMS Unknown|Unknown",
        text: "as BAD PARAMS Unknown 2 (docs/FORMATS.md)\nLine n is the first bad line, and its key is no \
parameter's. A line without a blank is its key.\na text that has it:\n    taxi LX-4711\n    \
pulses 10000\n    mode single\n    hold 60\n    offset 946684800 3600\n    secured 2025-12-01\n\
the same mended:\n    taxi LX-4711\n    constant 10000\n    mode single\n    hold 60\n    offset \
946684800 3600\n    secured 2025-12-01\n",
    }
}

/// A fault of a text, with a text that has it and the same mended.
fn fault_19() -> Topic {
    Topic {
        names: "BAD PARAMS Twice|PARAMS Twice|Twice",
        text: "as BAD PARAMS Twice Hold (docs/FORMATS.md)\nThe first bad line has a key other than `offset` \
that stood before.\na text that has it:\n    taxi LX-4711\n    constant 10000\n    mode single\n    \
hold 60\n    hold 120\n    offset 946684800 3600\n    secured 2025-12-01\nthe same mended:\n    \
taxi LX-4711\n    constant 10000\n    mode single\n    hold 120\n    offset 946684800 3600\n    \
secured 2025-12-01\n",
    }
}

/// A fault of a text, with a text that has it and the same mended.
fn fault_20() -> Topic {
    Topic {
        names: "BAD PARAMS BadValue|PARAMS BadValue|BadValue",
        text: "as BAD PARAMS BadValue 5 (docs/FORMATS.md)\nLine n is the first bad line, and its value is not \
as docs/FORMATS.md says, or its offset can't follow those before. Here the\nfirst offset has to \
begin at 946684800.\na text that has it:\n    taxi LX-4711\n    constant 10000\n    mode \
single\n    hold 60\n    offset 1774746000 7200\n    secured 2025-12-01\nthe same mended:\n    \
taxi LX-4711\n    constant 10000\n    mode single\n    hold 60\n    offset 946684800 3600\n    \
offset 1774746000 7200\n    secured 2025-12-01\n",
    }
}

/// A fault of a text, with a text that has it and the same mended.
fn fault_21() -> Topic {
    Topic {
        names: "BAD PARAMS Missing|PARAMS Missing|Missing",
        text: "as BAD PARAMS Missing Mode (docs/FORMATS.md)\nNo line is bad, and a key has no line: `taxi`, \
`constant`, `mode`, `hold`, `offset` or `secured`.\na text that has it:\n    taxi LX-4711\n    \
constant 10000\n    hold 60\n    offset 946684800 3600\n    secured 2025-12-01\nthe same \
mended:\n    taxi LX-4711\n    constant 10000\n    mode single\n    hold 60\n    offset \
946684800 3600\n    secured 2025-12-01\n",
    }
}

/// A fault of a text, with a text that has it and the same mended.
fn fault_22() -> Topic {
    Topic {
        names: "BAD RULES TooLong|RULES TooLong|TooLong",
        text: "as BAD RULES TooLong (docs/FORMATS.md)\nThe text has more than 4,096 bytes. It has exactly four \
lines, and no comment.\na text that has it:\n    # A comment of more than forty bytes, which has \
no place here.\n    .. and so on, 100 such lines\n    standard 3600\n    summer 7200\n    begin \
last sun mar 01:00\n    end last sun oct 01:00\nthe same mended:\n    standard 3600\n    summer \
7200\n    begin last sun mar 01:00\n    end last sun oct 01:00\n",
    }
}

/// A fault of a text, with a text that has it and the same mended.
fn fault_23() -> Topic {
    Topic {
        names: "BAD RULES BadLine|RULES BadLine|BadLine",
        text: "as BAD RULES BadLine 3 (docs/FORMATS.md)\nLine n is the first of the four that isn't as it has \
to be, or is absent; or n is 5, and something follows the four lines.\nEach line ends in LF, the \
last one too.\na text that has it:\n    standard 3600\n    summer 7200\n    begin last sunday \
mar 01:00\n    end last sun oct 01:00\nthe same mended:\n    standard 3600\n    summer 7200\n    \
begin last sun mar 01:00\n    end last sun oct 01:00\n",
    }
}

/// A fault of a text, with a text that has it and the same mended.
fn fault_24() -> Topic {
    Topic {
        names: "BAD RULES SameMonth|RULES SameMonth|SameMonth",
        text: "as BAD RULES SameMonth (docs/FORMATS.md)\nBoth changes are in one month.\na text that has it:\n    \
standard 3600\n    summer 7200\n    begin first sun mar 01:00\n    end last sun mar 01:00\nthe \
same mended:\n    standard 3600\n    summer 7200\n    begin last sun mar 01:00\n    end last sun \
oct 01:00\n",
    }
}

/// A fault of a text, with a text that has it and the same mended.
fn fault_25() -> Topic {
    Topic {
        names: "BAD READINGS|READINGS",
        text: "as BAD READINGS 2 (docs/FORMATS.md)\nRow n is the first that isn't of the form \
`fare,distance,time`; row 1 has these words. A fare has at most the decimals of the\ntariff, a \
distance at most three, a time at most one. `BAD READINGS TOO LONG` are readings of more than \
1,048,576 bytes.\na text that has it:\n    fare,distance,time\n    4.30,300 m,15.3\nthe same \
mended:\n    fare,distance,time\n    4.30,300,15.3\n",
    }
}

/// A fault of a text, with a text that has it and the same mended.
fn fault_26() -> Topic {
    Topic {
        names: "BAD BOOK|BOOK",
        text: "as BAD BOOK 2 (docs/use/SHIFT_BOOK.md)\nLine n is the first that is no mark, signs on while \
somebody is on or off while nobody is, or has a number that is smaller than\nin the mark before \
it or greater than in the store. Here ANNA hasn't signed off. `BAD BOOK TOO LONG` is a book of \
more than\n1,048,576 bytes.\na text that has it:\n    ON ANNA 1 0 0 0 0 0\n    ON BEA 1 0 0 0 0 \
0\nthe same mended:\n    ON ANNA 1 0 0 0 0 0\n    OFF 1 0 0 0 0 0\n    ON BEA 1 0 0 0 0 0\n",
    }
}

/// Each of these by its place.
pub(crate) fn fault(place: usize) -> Option<Topic> {
    match place {
        0 => Some(fault_0()),
        1 => Some(fault_1()),
        2 => Some(fault_2()),
        3 => Some(fault_3()),
        4 => Some(fault_4()),
        5 => Some(fault_5()),
        6 => Some(fault_6()),
        7 => Some(fault_7()),
        8 => Some(fault_8()),
        9 => Some(fault_9()),
        10 => Some(fault_10()),
        11 => Some(fault_11()),
        12 => Some(fault_12()),
        13 => Some(fault_13()),
        14 => Some(fault_14()),
        15 => Some(fault_15()),
        16 => Some(fault_16()),
        17 => Some(fault_17()),
        18 => Some(fault_18()),
        19 => Some(fault_19()),
        20 => Some(fault_20()),
        21 => Some(fault_21()),
        22 => Some(fault_22()),
        23 => Some(fault_23()),
        24 => Some(fault_24()),
        25 => Some(fault_25()),
        26 => Some(fault_26()),
        _ => None,
    }
}

/// A refusal of the meter.
fn refusal_0() -> Topic {
    Topic {
        names: "REFUSED NOT NOW",
        text: "  REFUSED NOT NOW: not in this operating position\n",
    }
}

/// A refusal of the meter.
fn refusal_1() -> Topic {
    Topic {
        names: "REFUSED KEY WAITING",
        text: "  REFUSED KEY WAITING: another key waits for the end of the interval\n",
    }
}

/// A refusal of the meter.
fn refusal_2() -> Topic {
    Topic {
        names: "REFUSED NO SUCH",
        text: "  REFUSED NO SUCH: the tariff has no such position, zone or supplement\n",
    }
}

/// A refusal of the meter.
fn refusal_3() -> Topic {
    Topic {
        names: "REFUSED AT MOST",
        text: "  REFUSED AT MOST: the supplement was added as often as the tariff allows\n",
    }
}

/// A refusal of the meter.
fn refusal_4() -> Topic {
    Topic {
        names: "REFUSED CLOCK BACK",
        text: "  REFUSED CLOCK BACK last given: in a trip the clock was given a second before the last one; \
both in seconds from 1970-01-01T00:00Z\n",
    }
}

/// A refusal of the meter.
fn refusal_5() -> Topic {
    Topic {
        names: "REFUSED TOO FAST",
        text: "  REFUSED TOO FAST n: n pulses more than an interval can have\n",
    }
}

/// A refusal of the meter.
fn refusal_6() -> Topic {
    Topic {
        names: "REFUSED POWERED",
        text: "  REFUSED POWERED: the meter is powered already\n",
    }
}

/// A refusal of the meter.
fn refusal_7() -> Topic {
    Topic {
        names: "REFUSED EXPIRED",
        text: "  REFUSED EXPIRED: the trip had reached its longest time\n",
    }
}

/// A refusal of the meter.
fn refusal_8() -> Topic {
    Topic {
        names: "REFUSED ENDED",
        text: "  REFUSED ENDED: the store takes no further hiring\n",
    }
}

/// Each of these by its place.
pub(crate) fn refusal(place: usize) -> Option<Topic> {
    match place {
        0 => Some(refusal_0()),
        1 => Some(refusal_1()),
        2 => Some(refusal_2()),
        3 => Some(refusal_3()),
        4 => Some(refusal_4()),
        5 => Some(refusal_5()),
        6 => Some(refusal_6()),
        7 => Some(refusal_7()),
        8 => Some(refusal_8()),
        _ => None,
    }
}
