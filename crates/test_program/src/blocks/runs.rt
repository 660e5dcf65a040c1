//! A block that is built of a text and queried; other texts and other bytes in its place.
use program_base::runs::Form;
use program_files::blocks::{Failure, Kind, build, query, start};
use std::fs;
use std::io::Input;
use std::process::Abort;
use std::rt::Files;
use std::test::Fail;
use test_writers::Failing;

/// Six numbers of three bits.
const NUMBERS: &str = "3\n1\n\n4\n1\n5\n1";

/// The block of the numbers in a text.
fn built(rt: &(impl Abort + AllocGlobal), text: &str) -> Result<Vec<u8>, Fail> {
    let mut out = Vec::new(rt.alloc());
    build(rt.alloc(), Kind::Matrix, text.as_bytes(), &mut out)?;
    Ok(out)
}

/// Compares what a block answers to the lines of a text, and whether each is a question.
fn expect_answers(
    rt: &(impl Abort + AllocGlobal),
    block: &[u8],
    text: &str,
    answers: &str,
    good: bool,
) -> Result<(), Fail> {
    let mut out = Vec::new(rt.alloc());
    assert_eq!(rt;
        query(rt.alloc(), block, text.as_bytes(), Form::Text, &mut out)?,
        good
    );
    assert!(rt; out.as_slice() == answers.as_bytes());
    Ok(())
}

#[test]
fn a_block_answers_by_the_numbers_of_its_text(rt: HostRuntime) -> Result<(), Fail> {
    let block = built(&rt, NUMBERS)?;
    assert_eq!(rt; block.len(), 640);
    let text = "get 0\nget 5\nget 6\nrank 1 4\nrank 1 7\nselect 1 2\nselect 1 3\nselect 9 0\n";
    let answers = "3\n1\nnone\n2\nnone\n5\nnone\nnone\n";
    expect_answers(&rt, block.as_slice(), text, answers, true)
}

#[test]
fn a_line_that_asks_nothing_is_a_bad_question(rt: HostRuntime) -> Result<(), Fail> {
    let block = built(&rt, NUMBERS)?;
    let text = "get\n\nget 0 \nrank 1\nGet 0\nselect 1 2 3\nget 18446744073709551616\nget 2\n";
    let bad =
        "bad question\nbad question\nbad question\nbad question\nbad question\nbad question\n4\n";
    expect_answers(&rt, block.as_slice(), text, bad, false)
}

#[test]
fn numbers_have_up_to_64_bits(rt: HostRuntime) -> Result<(), Fail> {
    let block = built(&rt, "18446744073709551615\n0\n")?;
    expect_answers(
        &rt,
        block.as_slice(),
        "get 0\nget 1\nget 2\n",
        "18446744073709551615\n0\nnone\n",
        true,
    )?;
    let block = built(&rt, "")?;
    expect_answers(
        &rt,
        block.as_slice(),
        "get 0\nrank 0 0\n",
        "none\n0\n",
        true,
    )
}

#[test]
fn a_wrong_line_is_named_and_nothing_is_written(rt: HostRuntime) -> Result<(), Fail> {
    for (text, line) in [
        ("x", 0),
        ("1\n\n2 3\n", 2),
        ("1\n-1\ny\n", 1),
        ("18446744073709551616", 0),
    ] {
        let mut out = Vec::new(rt.alloc());
        let failure = build(rt.alloc(), Kind::Matrix, text.as_bytes(), &mut out);
        assert_eq!(rt; failure, Err(Failure::WrongLine(line)));
        assert!(rt; out.is_empty());
    }
    Ok(())
}

#[test]
fn other_bytes_are_a_wrong_block(rt: HostRuntime) -> Result<(), Fail> {
    let mut block = built(&rt, NUMBERS)?;
    let (text, mut out) = (b"get 0".as_slice(), Vec::new(rt.alloc()));
    for at in 0..block.len() {
        // the first seven bytes are the letters of the mark, and the eighth the version, which becomes 5
        let flipped = if at < 7 {
            Failure::Unmarked
        } else if at == 7 {
            Failure::OtherVersion(5)
        } else {
            Failure::WrongBlock
        };
        block[at] ^= 1;
        let answer = query(rt.alloc(), block.as_slice(), text, Form::Text, &mut out);
        assert!(rt; answer == Err(flipped), "at byte {at}");
        block[at] ^= 1;
        let cut = if at < 8 {
            Failure::Unmarked
        } else {
            Failure::WrongBlock
        };
        let answer = query(
            rt.alloc(),
            &block.as_slice()[..at],
            text,
            Form::Text,
            &mut out,
        );
        assert!(rt; answer == Err(cut), "at length {at}");
    }
    assert!(rt; out.is_empty());
    Ok(())
}

#[test]
fn a_write_that_fails_is_reported(rt: HostRuntime) -> Result<(), Fail> {
    let block = built(&rt, NUMBERS)?;
    let block = block.as_slice();
    let mut out = Failing::new(rt.alloc(), 0, true);
    let text = NUMBERS.as_bytes();
    assert_eq!(rt;
        build(rt.alloc(), Kind::Matrix, text, &mut out),
        Err(Failure::CannotWrite)
    );
    let question = b"get 0".as_slice();
    assert_eq!(rt;
        query(rt.alloc(), block, question, Form::Text, &mut out),
        Err(Failure::CannotWrite)
    );
    Ok(())
}

/// Runs `start` and compares its status and its output.
fn expect_start(
    rt: &(impl Abort + Files + Input + AllocGlobal),
    args: (&str, &str),
    status: u8,
    out_text: &str,
    err_text: &str,
) -> Result<(), Fail> {
    let args = [
        String::from_str(rt.alloc(), args.0)?,
        String::from_str(rt.alloc(), args.1)?,
    ];
    let mut out = Vec::new(rt.alloc());
    let mut err = Vec::new(rt.alloc());
    assert_eq!(rt; start(rt, &args, &mut out, &mut err), status);
    assert!(rt; out.as_slice() == out_text.as_bytes());
    assert!(rt; err.as_slice() == err_text.as_bytes());
    Ok(())
}

#[test]
fn start_ends_with_the_status_and_text_of_its_file(rt: HostRuntime) -> Result<(), Fail> {
    let usage =
        "usage: bitm build KIND | bitm query [--json] BLOCK | bitm check BLOCK | bitm info BLOCK\n\
         KIND is bits, sequence, sparse, matrix or tree; bitm text and bitm strings say what they do with a text\n";
    expect_start(&rt, ("build", "forest"), 2, "", usage)?;
    expect_start(&rt, ("show", "."), 2, "", usage)?;
    expect_start(&rt, ("query", "."), 2, "", "bitm: cannot read\n")?;
    expect_start(&rt, ("query", "no_such_file"), 2, "", "bitm: cannot read\n")?;

    let path = "bitm_statuses.block";
    let mut block = built(&rt, NUMBERS)?;
    fs::write(&rt, path, block.as_slice())?;
    expect_start(&rt, ("query", path), 0, "", "")?;
    assert!(rt; block.len() == 640);
    block[320] ^= 1;
    fs::write(&rt, path, block.as_slice())?;
    let wrong = "bitm: not a block of a kind that bitm queries, or not as it was written\n";
    expect_start(&rt, ("query", path), 2, "", wrong)?;
    fs::remove_file(&rt, path)?;
    Ok(())
}

#[test]
fn start_reports_that_a_flush_failed(rt: HostRuntime) -> Result<(), Fail> {
    let args = [
        String::from_str(rt.alloc(), "build")?,
        String::from_str(rt.alloc(), "matrix")?,
    ];
    let mut out = Failing::new(rt.alloc(), 1000, false);
    let mut err = Vec::new(rt.alloc());
    assert_eq!(rt; start(&rt, &args, &mut out, &mut err), 2);
    assert!(rt; err.as_slice() == b"bitm: cannot write\n".as_slice());
    Ok(())
}
