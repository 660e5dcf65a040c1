//! The words of a text as a trie: how many begin with some letters, which they are, and which is the first of them.
#![tactic(auto)]

ghost use Rattle.std.specs.Prelude.{◌<◌, length};

mod growing;

use growing::{Grown, grow};
use louds::{SampledLouds, SampledTrie};
use std::alloc::{AllocError, Global};
use std::{env, fs, io};

/// Binary digits of a label: a byte.
const WIDTH: u8 = 8;

/// The words of a text in the order of a dictionary, each once.
fn different<'a>(alloc: Global, text: &'a str) -> Result<Vec<&'a str>, AllocError> {
    let mut words: Vec<&str> = text.split_whitespace().collect(alloc)?;
    words.sort_unstable();
    words.dedup();
    Ok(words)
}

/// The node to which a word leads; `None` where it leads to none.
fn node_of(alloc: Global, trie: &SampledTrie, word: &str) -> Result<Option<usize>, AllocError> {
    let labels: Vec<u64> = word.bytes().map(|byte| byte as u64).collect(alloc)?;
    Ok(trie.find(labels.as_slice()))
}

/// The nodes where words end that begin with the word of a node: level by level, so the short ones first.
fn ends_from(
    alloc: Global,
    tree: &SampledLouds,
    ends: &[bool],
    node: usize,
) -> Result<Vec<usize>, AllocError>
    requires { node < length tree.now.degrees }
{
    let nodes = tree.len();
    let mut found = Vec::new(alloc);
    let mut level = node..node + 1;
    for _ in 0..nodes {
        for at in level.start..level.end {
            if ends.get(at) == Some(&true) {
                found.push(at)?;
            }
        }
        level = tree.children_of_range(level);
    }
    Ok(found)
}

/// The node where the first word ends, in the order of a dictionary, that begins with the word of a node.
fn first_end(tree: &SampledLouds, ends: &[bool], node: usize) -> usize
    requires { node < length tree.now.degrees }
{
    let mut at = node;
    for _ in 0..tree.len() {
        if ends.get(at) == Some(&true) {
            break;
        }
        match tree.first_child(at) {
            Some(child) => at = child,
            None => break,
        }
    }
    at
}

/// The word that leads to a node.
fn word_of(alloc: Global, trie: &SampledTrie, node: usize) -> Result<String, AllocError> {
    let mut bytes = Vec::new(alloc);
    if node < trie.tree().len() {
        for label in &trie.word(alloc, node)? {
            bytes.push((*label & 255) as u8)?;
        }
    }
    String::from_utf8_lossy(alloc, bytes.as_slice())
}

/// Prints the words that begin with some letters, which lead to a node.
fn print_words(
    rt: &HostRuntime,
    trie: &SampledTrie,
    ends: &[bool],
    letters: &str,
    node: usize,
) -> io::Result<()> {
    let tree = trie.tree();
    if node >= tree.len() {
        return Ok(());
    }
    let found = ends_from(rt.alloc(), tree, ends, node)?;
    println!(rt; "{} begin with {letters}", found.len())?;
    for end in &found {
        print_word(rt, trie, "  ", *end)?;
    }
    print_word(rt, trie, "first of them: ", first_end(tree, ends, node))
}

/// Prints the word that leads to a node, after a text.
fn print_word(rt: &HostRuntime, trie: &SampledTrie, before: &str, node: usize) -> io::Result<()> {
    let word = word_of(rt.alloc(), trie, node)?;
    println!(rt; "{before}{word}")?;
    Ok(())
}

/// Prints how many words and nodes there are, and which words begin with some letters.
fn print_found(
    rt: &HostRuntime,
    trie: &SampledTrie,
    grown: &Grown,
    letters: &str,
) -> io::Result<()> {
    let words = grown.ends.iter().filter(|ends| **ends).count();
    println!(rt; "{words} words, {} nodes", trie.tree().len())?;
    match node_of(rt.alloc(), trie, letters)? {
        Some(node) => print_words(rt, trie, grown.ends.as_slice(), letters, node),
        None => {
            println!(rt; "none begins with {letters}")?;
            Ok(())
        }
    }
}

/// Builds the trie of a text's words, and prints what begins with some letters.
fn answer(rt: &HostRuntime, text: &str, letters: &str) -> io::Result<()> {
    let words = different(rt.alloc(), text)?;
    let Some(grown) = grow(rt.alloc(), words.as_slice())? else {
        println!(rt; "the words do not rise")?;
        return Ok(());
    };
    let (degrees, labels) = (grown.degrees.as_slice(), grown.labels.as_slice());
    match SampledTrie::build(rt.alloc(), degrees, labels, WIDTH) {
        Ok(trie) => print_found(rt, &trie, &grown, letters),
        Err(_) => {
            println!(rt; "the text has too many words")?;
            Ok(())
        }
    }
}

fn main(rt: HostRuntime) -> io::Result<()> {
    let args: Vec<String> = env::args(&rt)?.skip(1).collect(rt.alloc())?;
    let [path, letters] = args.as_slice() else {
        println!(rt; "usage: example_trie_words FILE LETTERS")?;
        return Ok(());
    };
    let text = fs::read_to_string(&rt, path.as_str())?;
    answer(&rt, text.as_str(), letters.as_str())
}
