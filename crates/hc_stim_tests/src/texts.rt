//! What no clause says: that calls succeed while memory is left, and the worked rows.
ghost use Rattle.hc_stim.specs.Text.{AreWidths};

use hc_outside::MemSink;
use hc_stim::{Stim, StimErr, Widths, read_stim, write_header, write_line};
use std::alloc::Global;
use std::test::Fail;

/// Texts with one input of 1 bit, each with its lines or the line that breaks the rules.
const BUTTON: [(&str, &str); 13] = [
    ("", ""),
    ("0\n1\n1\n0\n", "0;1;1;0;"),
    ("1\n0", "1;0;"),
    ("0", "0;"),
    ("2", "bad 1"),
    ("2\n", "bad 1"),
    ("1\n00\n", "bad 2"),
    ("1\n01", "bad 2"),
    ("\n", "bad 1"),
    ("1\n\n", "bad 2"),
    ("1\r\n", "bad 1"),
    ("1 \n", "bad 1"),
    (" 1\n", "bad 1"),
];

/// Texts with two inputs of 4 and 128 bits.
const PAIR: [(&str, &str); 9] = [
    (
        "15 340282366920938463463374607431768211455\n",
        "15,340282366920938463463374607431768211455;",
    ),
    ("0 340282366920938463463374607431768211456\n", "bad 1"),
    ("0 3402823669209384634633746074317682114550\n", "bad 1"),
    ("16 0\n", "bad 1"),
    ("3 4", "3,4;"),
    ("3 4\n3  4\n", "bad 2"),
    ("3 4\n3\n", "bad 2"),
    ("3 4 5\n", "bad 1"),
    ("3,4\n", "bad 1"),
];

/// Texts without inputs.
const NONE: [(&str, &str); 5] = [
    ("", ""),
    ("\n", ";"),
    ("\n\n\n", ";;;"),
    ("\n0\n", "bad 2"),
    (" ", "bad 1"),
];

/// The numbers of a stimulus, a `;` behind each line.
fn lines(alloc: Global, stim: &Stim) -> Result<String, Fail> {
    let mut out = String::new(alloc);
    for k in 0..stim.clocks() {
        let mut mark = "";
        for value in stim.line(k) {
            let piece = format!(in alloc; "{mark}{value}")?;
            out.push_str(&piece)?;
            mark = ",";
        }
        out.push_str(";")?;
    }
    Ok(out)
}

/// What `read_stim` answers to a text.
fn shown(alloc: Global, text: &str, widths: &Widths) -> Result<String, Fail>
    requires { AreWidths widths.now.items }
{
    match read_stim(alloc, text.as_bytes(), widths) {
        Ok(stim) => lines(alloc, &stim),
        Err(StimErr::BadLine(n)) => Ok(format!(in alloc; "bad {n}")?),
        Err(StimErr::NoMemory) => Ok(String::from_str(alloc, "no memory")?),
    }
}

#[test]
fn a_stimulus_has_a_line_for_each_clock(rt: HostRuntime) -> Result<(), Fail> {
    let alloc = rt.alloc();
    let button = vec![in alloc; 1]?;
    for (text, wanted) in BUTTON {
        assert_eq!(rt; shown(alloc, text, &button)?.as_str(), wanted, "{text}");
    }
    let pair = vec![in alloc; 4, 128]?;
    for (text, wanted) in PAIR {
        assert_eq!(rt; shown(alloc, text, &pair)?.as_str(), wanted, "{text}");
    }
    let none = Vec::new(alloc);
    for (text, wanted) in NONE {
        assert_eq!(rt; shown(alloc, text, &none)?.as_str(), wanted, "{text}");
    }
    Ok(())
}

#[test]
fn a_trace_has_a_header_and_a_line_for_each_clock(rt: HostRuntime) -> Result<(), Fail> {
    let alloc = rt.alloc();
    let mut names = Vec::new(alloc);
    names.push(Vec::from_slice(alloc, b"led")?)?;
    names.push(Vec::from_slice(alloc, b"far")?)?;
    let mut out = MemSink::new(alloc);
    write_header(alloc, &names, &mut out)?;
    write_line(alloc, 0, &[0, 1], &mut out)?;
    write_line(alloc, 10, &[63, u128::MAX], &mut out)?;
    assert_eq!(rt;
        out.bytes(),
        b"clock led far\n0 0 1\n10 63 340282366920938463463374607431768211455\n".as_slice()
    );
    Ok(())
}
