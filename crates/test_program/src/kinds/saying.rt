//! What is said of the words of a block.
use program_base::runs::Form;
use program_files::blocks::write_words;
use program_files::kinds::{check, info};
use std::process::Abort;
use std::test::Fail;

/// Compares what is said of a file, which is as it was written.
pub(crate) fn expect_said(
    rt: &(impl Abort + AllocGlobal),
    file: &[u8],
    said: &str,
) -> Result<(), Fail> {
    assert!(rt; check(rt.alloc(), file)?);
    let mut out = Vec::new(rt.alloc());
    info(rt.alloc(), file, Form::Text, &mut out)?;
    assert!(rt; out.as_slice() == said.as_bytes());
    Ok(())
}

/// The file of a block.
pub(crate) fn file_of(rt: &(impl Abort + AllocGlobal), block: &[u64]) -> Result<Vec<u8>, Fail> {
    let mut file = Vec::new(rt.alloc());
    assert!(rt; write_words(block, &mut file).is_ok());
    Ok(file)
}

/// Compares what is said of a block, which is as it was written.
pub(crate) fn expect_said_of_block(
    rt: &(impl Abort + AllocGlobal),
    block: &[u64],
    said: &str,
) -> Result<(), Fail> {
    let file = file_of(rt, block)?;
    expect_said(rt, file.as_slice(), said)
}
