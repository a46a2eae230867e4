//! Whole runs over memory.
use arrow_types::Mem;
use jobs::{MemorySink, MemorySource, Outcome, PlainSink, PlainSource, Sink, Source, run};
use std::alloc::Global;

/// A job, how its run ends, and the line that it writes, if any.
pub(crate) type Row = (&'static str, Outcome, &'static str);

const NULL_IN_THE_MIDDLE: &str = r#"{"data":{"mask":"101","values":[1,7,3]},"type":"int32"}"#;

const ZERO_IN_THE_MIDDLE: &str = r#"{"data":{"mask":"101","values":[1,0,3]},"type":"int32"}"#;

const ZERO_LINE: &[u8] = b"{\"data\":{\"mask\":\"101\",\"values\":[1,0,3]},\"type\":\"int32\"}\n";

/// Whether bytes are this line and its end; no bytes where there is no line.
fn is_line(bytes: &[u8], line: &str) -> bool {
    match bytes {
        [] => line.is_empty(),
        [text @ .., end] => text == line.as_bytes() && *end == b'\n',
    }
}

fn words_of(alloc: Global, words: &[&str]) -> Mem<Vec<String>> {
    let mut strings = Vec::new(alloc);
    for word in words {
        strings.push(String::from_str(alloc, word)?)?;
    }
    Ok(strings)
}

/// How a run of these words ends.
fn outcome_of<S: Source, K: Sink>(
    alloc: Global,
    words: &[&str],
    source: &mut S,
    sink: &mut K,
) -> Mem<Outcome> {
    let words = words_of(alloc, words)?;
    let outcome = run(alloc, words.as_slice(), source, sink);
    drop(words);
    Ok(outcome)
}

/// How a run ends whose writes of these numbers fail. What its sink holds is appended.
fn run_from(
    alloc: Global,
    words: &[&str],
    source: &mut MemorySource,
    writes: &[usize],
    held: &mut Vec<u8>,
) -> Mem<Outcome> {
    let mut sink = MemorySink::new(alloc, 1024, 8, writes)?;
    let outcome = outcome_of(alloc, words, source, &mut sink);
    let appended = held.extend_from_slice(sink.held());
    drop(sink);
    appended?;
    outcome
}

/// The same, over these bytes and with reads of these numbers that fail.
fn run_over(
    alloc: Global,
    words: &[&str],
    input: &str,
    (reads, writes): (&[usize], &[usize]),
    held: &mut Vec<u8>,
) -> Mem<Outcome> {
    let mut source = MemorySource::new(alloc, input.as_bytes(), 8, reads)?;
    let outcome = run_from(alloc, words, &mut source, writes, held);
    drop(source);
    outcome
}

/// Whether a job of a command ends and writes as its row says.
fn is_so(alloc: Global, command: &str, row: &Row) -> Mem<bool> {
    let mut held = Vec::new(alloc);
    let outcome = run_over(alloc, &[command], row.0, (&[], &[]), &mut held);
    let is_written = is_line(held.as_slice(), row.2);
    drop(held);
    Ok(outcome? == row.1 && is_written)
}

/// Whether a job ends and writes as its row says, and `check` is done with what it writes.
fn is_settled(alloc: Global, command: &str, row: &Row) -> Mem<bool> {
    if row.2.is_empty() {
        return is_so(alloc, command, row);
    }
    let is_canonical = is_so(alloc, "check", &(row.2, Outcome::Done, ""))?;
    Ok(is_so(alloc, command, row)? && is_canonical)
}

/// The first job of a command that doesn't end and write as its row says, or writes what isn't
/// canonical.
pub(crate) fn first_wrong(alloc: Global, command: &str, rows: &[Row]) -> Option<&'static str> {
    for row in rows {
        if !matches!(is_settled(alloc, command, row), Ok(true)) {
            return Some(row.0);
        }
    }
    None
}

#[test]
fn each_input_has_its_outcome(rt: HostRuntime) {
    let wrong = first_wrong(
        rt.alloc(),
        "canon",
        &[
            (NULL_IN_THE_MIDDLE, Outcome::Done, ZERO_IN_THE_MIDDLE),
            (
                r#"{"data":{"mask":"111","values":[1,7,3]},"type":"int32"}"#,
                Outcome::Done,
                r#"{"data":{"mask":null,"values":[1,7,3]},"type":"int32"}"#,
            ),
            (
                r#" { "type" : "int32" , "data" : { "values" : [ ] , "mask" : "" } } "#,
                Outcome::Done,
                r#"{"data":{"mask":null,"values":[]},"type":"int32"}"#,
            ),
            (
                r#"{"data":{"mask":null,"values":[-2147483648,2147483647]},"type":"int32"}"#,
                Outcome::Done,
                r#"{"data":{"mask":null,"values":[-2147483648,2147483647]},"type":"int32"}"#,
            ),
            (
                r#"{"data":{"mask":null,"values":[7]},"type":["extension","x","date32",null]}"#,
                Outcome::Done,
                r#"{"data":{"mask":null,"values":[7]},"type":["extension","x","date32",null]}"#,
            ),
            (
                r#"{"data":{"mask":null,"values":[1]},"type":"int33"}"#,
                Outcome::BadJob,
                "",
            ),
            (
                r#"{"data":{"mask":null,"values":[1]},"type":["list",["item","int32",true,null]]}"#,
                Outcome::BadJob,
                "",
            ),
            (
                r#"{"data":{"mask":null,"values":[1]},"type":"float32"}"#,
                Outcome::BadJob,
                "",
            ),
            (
                r#"{"data":{"mask":null,"values":[1.5]},"type":"int32"}"#,
                Outcome::BadJob,
                "",
            ),
            (
                r#"{"data":{"mask":null,"values":[2147483648]},"type":"int32"}"#,
                Outcome::BadJob,
                "",
            ),
            (
                r#"{"data":{"mask":"10","values":[1,7,3]},"type":"int32"}"#,
                Outcome::BadLayout(0),
                "",
            ),
            (
                r#"{"data":{"mask":"1x1","values":[1,7,3]},"type":"int32"}"#,
                Outcome::BadJob,
                "",
            ),
            (
                r#"{"data":{"mask":null,"values":[1,2]},"slice":[1,1],"type":"int32"}"#,
                Outcome::Done,
                r#"{"data":{"mask":null,"values":[2]},"type":"int32"}"#,
            ),
            (
                r#"{"data":{"mask":null,"values":[1,2]},"slice":[1,2],"type":"int32"}"#,
                Outcome::BadLayout(0),
                "",
            ),
            (
                r#"{"data":{"mask":"1","values":[1,2]},"slice":[1,0],"type":"int32"}"#,
                Outcome::BadLayout(0),
                "",
            ),
            (
                r#"{"data":{"mask":null,"values":[1]},"type":"int32"}x"#,
                Outcome::BadText,
                "",
            ),
            (r#"{"data":"#, Outcome::BadText, ""),
            ("", Outcome::BadText, ""),
        ],
    );
    assert!(rt; wrong.is_none(), "{wrong:?}");
}

/// One job of each layout without children, and one for each of its tests.
#[test]
fn each_flat_layout_has_its_outcome(rt: HostRuntime) {
    let wrong = first_wrong(
        rt.alloc(),
        "canon",
        &[
            (
                r#"{"data":{"mask":null,"values":"110100111"},"slice":[3,5],"type":"boolean"}"#,
                Outcome::Done,
                r#"{"data":{"mask":null,"values":"10011"},"type":"boolean"}"#,
            ),
            (
                r#"{"data":{"mask":"10","values":"11"},"type":"boolean"}"#,
                Outcome::Done,
                r#"{"data":{"mask":"10","values":"10"},"type":"boolean"}"#,
            ),
            (
                r#"{"data":{"mask":"1","values":"11"},"type":"boolean"}"#,
                Outcome::BadLayout(0),
                "",
            ),
            (
                concat!(
                    r#"{"data":{"mask":null,"values":["ffffffffffffffffffffffffffffffff"]},"#,
                    r#""type":"int128"}"#
                ),
                Outcome::Done,
                concat!(
                    r#"{"data":{"mask":null,"values":["ffffffffffffffffffffffffffffffff"]},"#,
                    r#""type":"int128"}"#
                ),
            ),
            (
                concat!(
                    r#"{"data":{"mask":null,"values":["FFFFFFFFFFFFFFFFFFFFFFFFFFFFFFFF"]},"#,
                    r#""type":"int128"}"#
                ),
                Outcome::Done,
                concat!(
                    r#"{"data":{"mask":null,"values":["ffffffffffffffffffffffffffffffff"]},"#,
                    r#""type":"int128"}"#
                ),
            ),
            (
                concat!(
                    r#"{"data":{"mask":null,"values":["FFFFFFFFFFFFFFFFFFFFFFFFFFFFFFFF"]},"#,
                    r#""type":["decimal",9,2]}"#
                ),
                Outcome::Done,
                concat!(
                    r#"{"data":{"mask":null,"values":["ffffffffffffffffffffffffffffffff"]},"#,
                    r#""type":["decimal",9,2]}"#
                ),
            ),
            (
                r#"{"data":{"mask":null,"values":["ff"]},"type":"int128"}"#,
                Outcome::BadJob,
                "",
            ),
            (
                r#"{"data":{"mask":"01","values":[1,18446744073709551615]},"type":"uint64"}"#,
                Outcome::Done,
                r#"{"data":{"mask":"01","values":[0,18446744073709551615]},"type":"uint64"}"#,
            ),
            (
                r#"{"data":{"mask":null,"values":[256]},"type":"uint8"}"#,
                Outcome::BadJob,
                "",
            ),
            (
                r#"{"data":{"mask":"10","values":[[1,-2],[3,4]]},"type":["interval","day_time"]}"#,
                Outcome::Done,
                r#"{"data":{"mask":"10","values":[[1,-2],[0,0]]},"type":["interval","day_time"]}"#,
            ),
            (
                r#"{"data":{"mask":"0","values":[[1,2,3]]},"type":["interval","month_day_nano"]}"#,
                Outcome::Done,
                r#"{"data":{"mask":"0","values":[[0,0,0]]},"type":["interval","month_day_nano"]}"#,
            ),
            (
                r#"{"data":{"mask":null,"values":[[1,2,3]]},"type":["interval","day_time"]}"#,
                Outcome::BadJob,
                "",
            ),
            (
                r#"{"data":{"bytes":"00616263","mask":"101","offsets":[1,2,3,4]},"type":"binary"}"#,
                Outcome::Done,
                r#"{"data":{"bytes":"6163","mask":"101","offsets":[0,1,1,2]},"type":"binary"}"#,
            ),
            (
                r#"{"data":{"bytes":"61","mask":null,"offsets":[0,2]},"type":"binary"}"#,
                Outcome::BadLayout(0),
                "",
            ),
            (
                r#"{"data":{"bytes":"6161","mask":null,"offsets":[1,0]},"type":"large_binary"}"#,
                Outcome::BadLayout(0),
                "",
            ),
            (
                r#"{"data":{"bytes":"61","mask":null,"offsets":[]},"type":"binary"}"#,
                Outcome::BadLayout(0),
                "",
            ),
            (
                r#"{"data":{"bytes":"61","mask":null,"offsets":[-1,1]},"type":"binary"}"#,
                Outcome::BadLayout(0),
                "",
            ),
            (
                r#"{"data":{"bytes":"61","mask":"11","offsets":[0,1]},"type":"large_binary"}"#,
                Outcome::BadLayout(0),
                "",
            ),
            (
                r#"{"data":{"bytes":"616263","mask":"1","offsets":[1,3]},"type":"large_binary"}"#,
                Outcome::Done,
                r#"{"data":{"bytes":"6263","mask":null,"offsets":[0,2]},"type":"large_binary"}"#,
            ),
            (
                r#"{"data":{"bytes":"c3a4","mask":null,"offsets":[0,0,2]},"type":"large_utf8"}"#,
                Outcome::Done,
                r#"{"data":{"bytes":"c3a4","mask":null,"offsets":[0,0,2]},"type":"large_utf8"}"#,
            ),
            (
                r#"{"data":{"bytes":"c3","mask":null,"offsets":[0,1]},"type":"large_utf8"}"#,
                Outcome::BadLayout(0),
                "",
            ),
            (
                r#"{"data":{"bytes":"c3a478","mask":null,"offsets":[0,2]},"type":"utf8"}"#,
                Outcome::Done,
                r#"{"data":{"bytes":"c3a4","mask":null,"offsets":[0,2]},"type":"utf8"}"#,
            ),
            (
                r#"{"data":{"bytes":"ff","mask":null,"offsets":[0,1]},"type":"utf8"}"#,
                Outcome::BadLayout(0),
                "",
            ),
            (
                r#"{"data":{"bytes":"c3a4","mask":"00","offsets":[0,1,2]},"type":"utf8"}"#,
                Outcome::BadLayout(0),
                "",
            ),
            (
                r#"{"data":{"bytes":"01020304","mask":"01"},"type":["fixed_size_binary",2]}"#,
                Outcome::Done,
                r#"{"data":{"bytes":"00000304","mask":"01"},"type":["fixed_size_binary",2]}"#,
            ),
            (
                r#"{"data":{"bytes":"0102","mask":"11"},"type":["fixed_size_binary",2]}"#,
                Outcome::BadLayout(0),
                "",
            ),
            (
                r#"{"data":{"bytes":"010203","mask":null},"type":["fixed_size_binary",2]}"#,
                Outcome::BadLayout(0),
                "",
            ),
            (
                r#"{"data":{"bytes":"","mask":null},"type":["fixed_size_binary",0]}"#,
                Outcome::BadLayout(0),
                "",
            ),
            (
                concat!(
                    r#"{"data":{"buffers":["0000615f766572795f766572795f6c6f6e675f737472696e675f"#,
                    r#"746861745f69735f6e6f745f696e6c696e61626c65"],"mask":null,"views":[[45,0,2],"#,
                    r#""616263"]},"type":"utf8_view"}"#
                ),
                Outcome::Done,
                concat!(
                    r#"{"data":{"buffers":["615f766572795f766572795f6c6f6e675f737472696e675f7468"#,
                    r#"61745f69735f6e6f745f696e6c696e61626c65"],"mask":null,"views":[[45,0,0],"#,
                    r#""616263"]},"type":"utf8_view"}"#
                ),
            ),
            (
                concat!(
                    r#"{"data":{"buffers":["00112233445566778899aabbcc"],"mask":"01","#,
                    r#""views":[[13,0,0],"FF"]},"type":"binary_view"}"#
                ),
                Outcome::Done,
                r#"{"data":{"buffers":[],"mask":"01","views":["","ff"]},"type":"binary_view"}"#,
            ),
            (
                concat!(
                    r#"{"data":{"buffers":["00112233445566778899aabbcc"],"mask":null,"#,
                    r#""views":[[13,0,1]]},"type":"binary_view"}"#
                ),
                Outcome::BadLayout(0),
                "",
            ),
            (
                r#"{"data":{"buffers":[],"mask":"11","views":["ff"]},"type":"binary_view"}"#,
                Outcome::BadLayout(0),
                "",
            ),
            (
                r#"{"data":{"buffers":[],"mask":null,"views":[[13,0,0]]},"type":"binary_view"}"#,
                Outcome::BadLayout(0),
                "",
            ),
            (
                r#"{"data":{"buffers":[],"mask":null,"views":["ff"]},"type":"utf8_view"}"#,
                Outcome::BadLayout(0),
                "",
            ),
            (
                concat!(
                    r#"{"data":{"buffers":[],"mask":null,"views":["00112233445566778899aabbcc"]},"#,
                    r#""type":"binary_view"}"#
                ),
                Outcome::BadJob,
                "",
            ),
        ],
    );
    assert!(rt; wrong.is_none(), "{wrong:?}");
}

#[test]
fn each_column_is_canonical_or_not(rt: HostRuntime) {
    let wrong = first_wrong(
        rt.alloc(),
        "check",
        &[
            (NULL_IN_THE_MIDDLE, Outcome::NotCanonical, ""),
            (ZERO_IN_THE_MIDDLE, Outcome::Done, ""),
            (
                r#"{"data":{"mask":"11","values":[1,2]},"type":"int32"}"#,
                Outcome::NotCanonical,
                "",
            ),
            (
                r#"{"data":{"mask":null,"values":"110"},"slice":[1,2],"type":"boolean"}"#,
                Outcome::NotCanonical,
                "",
            ),
            (
                r#"{"data":{"mask":null,"values":[1,1,0]},"slice":[1,2],"type":"int32"}"#,
                Outcome::Done,
                "",
            ),
            (
                r#"{"data":{"mask":"10","values":[1]},"type":"int32"}"#,
                Outcome::BadLayout(0),
                "",
            ),
            (
                r#"{"data":{"mask":null,"values":[1.5]},"type":"int32"}"#,
                Outcome::BadJob,
                "",
            ),
            (r#"{"data":"#, Outcome::BadText, ""),
        ],
    );
    assert!(rt; wrong.is_none(), "{wrong:?}");
}

/// How `canon` of these bytes ends over sources and sinks that don't fail. What the sink holds is
/// appended.
fn plain_run(alloc: Global, input: Vec<u8>, room: usize, held: &mut Vec<u8>) -> Mem<Outcome> {
    let mut source = PlainSource::new(input);
    let outcome = plain_run_from(alloc, &mut source, room, held);
    drop(source);
    outcome
}

/// The same, from a source.
fn plain_run_from(
    alloc: Global,
    source: &mut PlainSource,
    room: usize,
    held: &mut Vec<u8>,
) -> Mem<Outcome> {
    let mut sink = PlainSink::new(vec![in alloc; 0; room]?);
    let outcome = outcome_of(alloc, &["canon"], source, &mut sink);
    let appended = held.extend_from_slice(sink.held());
    drop(sink);
    appended?;
    outcome
}

/// How `canon` of these bytes ends where there is room for the answer, and whether it writes
/// nothing.
fn ends(alloc: Global, input: Vec<u8>) -> Mem<(Outcome, bool)> {
    let mut held = Vec::new(alloc);
    let outcome = plain_run(alloc, input, 1024, &mut held);
    let is_empty = held.is_empty();
    drop(held);
    Ok((outcome?, is_empty))
}

/// As many opening brackets as closing ones.
fn brackets(alloc: Global, depth: usize) -> Mem<Vec<u8>> {
    let mut text = Vec::new(alloc);
    for _ in 0..depth {
        text.push(b'[')?;
    }
    for _ in 0..depth {
        text.push(b']')?;
    }
    Ok(text)
}

#[test]
fn bytes_at_the_limits_have_their_outcome(rt: HostRuntime) -> Mem<()> {
    let alloc = rt.alloc();
    assert!(rt; ends(alloc, vec![in alloc; 255; 1]?)? == (Outcome::BadText, true));
    for (spaces, outcome) in [
        (16_777_216, Outcome::BadText),
        (16_777_217, Outcome::TooLong),
    ] {
        assert!(rt; ends(alloc, vec![in alloc; b' '; spaces]?)? == (outcome, true));
    }
    for (depth, outcome) in [(127, Outcome::BadJob), (128, Outcome::BadText)] {
        assert!(rt; ends(alloc, brackets(alloc, depth)?)? == (outcome, true));
    }
    Ok(())
}

/// A column of this type inside of `depth` extensions.
fn nested(alloc: Global, inner: &str, depth: usize) -> Mem<Vec<u8>> {
    let mut text = Vec::new(alloc);
    text.extend_from_slice(br#"{"data":{"mask":null,"values":[1]},"type":"#)?;
    for _ in 0..depth {
        text.extend_from_slice(br#"["extension","x","#)?;
    }
    text.extend_from_slice(inner.as_bytes())?;
    for _ in 0..depth {
        text.extend_from_slice(b",null]")?;
    }
    text.push(b'}')?;
    Ok(text)
}

#[test]
fn the_depth_of_a_type_has_a_limit(rt: HostRuntime) -> Mem<()> {
    let alloc = rt.alloc();
    for (inner, depth, outcome) in [
        (r#""int32""#, 31, Outcome::Done),
        (r#""int32""#, 32, Outcome::TooDeep),
        (r#""null""#, 32, Outcome::BadJob),
    ] {
        let is_empty = outcome != Outcome::Done;
        assert!(rt; ends(alloc, nested(alloc, inner, depth)?)? == (outcome, is_empty));
    }
    Ok(())
}

/// How `canon` ends over a sink of this room, and whether it fills the room with a prefix of the
/// answer.
fn fills(alloc: Global, room: usize) -> Mem<(Outcome, bool)> {
    let input = NULL_IN_THE_MIDDLE.as_bytes().to_vec(alloc)?;
    let mut held = Vec::new(alloc);
    let outcome = plain_run(alloc, input, room, &mut held);
    let is_filled = held.len() == room && ZERO_LINE.starts_with(held.as_slice());
    drop(held);
    Ok((outcome?, is_filled))
}

#[test]
fn a_plain_sink_without_room_is_a_write_fault(rt: HostRuntime) -> Mem<()> {
    for (room, outcome) in [(55, Outcome::WriteFault), (56, Outcome::Done)] {
        assert!(rt; fills(rt.alloc(), room)? == (outcome, true));
    }
    Ok(())
}

/// How a run ends whose calls of these numbers fail, and whether its sink holds these bytes.
fn faulty(
    alloc: Global,
    words: &[&str],
    faults: (&[usize], &[usize]),
    wanted: &[u8],
) -> Mem<(Outcome, bool)> {
    let mut held = Vec::new(alloc);
    let outcome = run_over(alloc, words, NULL_IN_THE_MIDDLE, faults, &mut held);
    let is_held = held.as_slice() == wanted;
    drop(held);
    Ok((outcome?, is_held))
}

#[test]
fn other_words_read_nothing(rt: HostRuntime) -> Mem<()> {
    let wordings: [&[&str]; 4] = [&[], &["gather"], &["canon", "x"], &["check", "canon"]];
    for words in wordings {
        assert!(rt; faulty(rt.alloc(), words, (&[1], &[1]), b"")? == (Outcome::Usage, true));
    }
    Ok(())
}

/// Seven pieces of eight bytes are read, and one call finds the end.
#[test]
fn each_read_that_fails_is_a_read_fault(rt: HostRuntime) -> Mem<()> {
    let alloc = rt.alloc();
    for call in 1..9 {
        let ended = faulty(alloc, &["canon"], (&[call], &[]), b"")?;
        assert!(rt; ended == (Outcome::ReadFault, true));
    }
    let ended = faulty(alloc, &["canon"], (&[9], &[]), ZERO_LINE)?;
    assert!(rt; ended == (Outcome::Done, true));
    Ok(())
}

/// The sink holds what the calls before the failed one wrote.
#[test]
fn each_write_that_fails_is_a_write_fault(rt: HostRuntime) -> Mem<()> {
    let alloc = rt.alloc();
    for (call, prefix) in [
        (1, ""),
        (2, r#"{"data":"#),
        (3, r#"{"data":{"mask":"#),
        (4, r#"{"data":{"mask":"101","v"#),
        (5, r#"{"data":{"mask":"101","values":["#),
        (6, r#"{"data":{"mask":"101","values":[1,0,3]},"#),
        (7, r#"{"data":{"mask":"101","values":[1,0,3]},"type":""#),
    ] {
        let ended = faulty(alloc, &["canon"], (&[], &[call]), prefix.as_bytes())?;
        assert!(rt; ended == (Outcome::WriteFault, true));
    }
    let ended = faulty(alloc, &["canon"], (&[], &[8]), ZERO_LINE)?;
    assert!(rt; ended == (Outcome::Done, true));
    Ok(())
}
