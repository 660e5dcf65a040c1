//! A concordance of a text: its words become numbers, in the order of a dictionary, and a wavelet matrix of these
//! numbers answers how often a word occurs, where, and which words are the most frequent.
#![tactic(auto)]

use std::alloc::{AllocError, Global};
use std::{env, fs, io};
use wavelet_matrix::{BinaryWaveletMatrix, all_fit};

/// The words of a text in the order of a dictionary, each once.
fn different<'a>(alloc: Global, words: &[&'a str]) -> Result<Vec<&'a str>, AllocError> {
    let mut different = Vec::from_slice(alloc, words)?;
    different.sort_unstable();
    different.dedup();
    Ok(different)
}

/// For each word its location among the different ones.
fn numbered<'a>(
    alloc: Global,
    words: &[&'a str],
    different: &[&'a str],
) -> Result<Vec<u64>, AllocError> {
    let mut numbers = Vec::with_capacity(alloc, words.len())?;
    for word in words {
        let location = different.binary_search(&*word).unwrap_or(0);
        numbers.push(location as u64)?;
    }
    Ok(numbers)
}

/// A matrix of numbers of up to 20 digits; `None` for greater ones, and for 2^40 or more of them.
fn matrix_of(alloc: Global, numbers: &[u64]) -> Result<Option<BinaryWaveletMatrix>, AllocError> {
    if numbers.len() >= 1 << 40 || !all_fit(numbers, 20) {
        return Ok(None);
    }
    Ok(Some(BinaryWaveletMatrix::build(alloc, numbers, 20)?))
}

/// Prints how often a word is in the text, and where the first three times, counted from 0.
fn print_word(
    rt: &HostRuntime,
    matrix: &BinaryWaveletMatrix,
    word: &str,
    number: u64,
) -> io::Result<()> {
    let count = matrix.try_rank(number, matrix.len()).unwrap_or(0);
    println!(rt; "{word}: {count} times")?;
    for k in 0..3usize {
        if let Some(position) = matrix.try_select(number, k) {
            println!(rt; "  at {position}")?;
        }
    }
    Ok(())
}

/// Prints the three most frequent words, with how often each is in the text.
fn print_frequent(
    rt: &HostRuntime,
    matrix: &BinaryWaveletMatrix,
    different: &[&str],
) -> io::Result<()> {
    println!(rt; "most frequent")?;
    for (number, count) in matrix.top_k(rt.alloc(), 0..matrix.len(), 3)? {
        let word = different.get(number as usize).copied().unwrap_or("");
        println!(rt; "  {word}: {count}")?;
    }
    Ok(())
}

fn main(rt: HostRuntime) -> io::Result<()> {
    let alloc = rt.alloc();
    let args: Vec<String> = env::args(&rt)?.skip(1).collect(alloc)?;
    let [path, sought] = args.as_slice() else {
        println!(rt; "usage: concordance FILE WORD")?;
        return Ok(());
    };
    let text = fs::read_to_string(&rt, path.as_str())?;
    let words: Vec<&str> = text.split_whitespace().collect(alloc)?;
    let different = different(alloc, words.as_slice())?;
    let numbers = numbered(alloc, words.as_slice(), different.as_slice())?;
    let Some(matrix) = matrix_of(alloc, numbers.as_slice())? else {
        println!(rt; "the text has too many words")?;
        return Ok(());
    };
    println!(rt; "{} words, {} different", words.len(), different.len())?;
    if let Ok(number) = different.binary_search(&sought.as_str()) {
        print_word(&rt, &matrix, sought.as_str(), number as u64)?;
    }
    print_frequent(&rt, &matrix, different.as_slice())
}
