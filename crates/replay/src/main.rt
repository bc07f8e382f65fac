//! Lists every recorded text and compares the listing with the recorded one.
#![tactic(auto)]

ghost use Rattle.std.specs.Prelude.{◌≡◌, ℕ, List, IfOk, Some};
ghost use Rattle.listing.specs.Listed.{Answers, admitted};
ghost use Rattle.records.specs.Hex.{decoded};

use anyhow::anyhow;
use listing::{Listing, list_input};
use records::{decode, next_record};
use std::alloc::Global;
use std::io::Read;

/// The longest list of records, in reads of at most 4096 bytes.
const LONGEST_LIST: usize = 16777216;

fn read_list(rt: &HostRuntime) -> anyhow::Result<Vec<u8>> {
    let mut list = Vec::new(rt.alloc());
    let mut buffer = [0u8; 4096];
    let mut input = rt.stdin();
    // The limit counts reads, and `take` would count bytes.
    for _ in 0..LONGEST_LIST {
        let count = input.read(&mut buffer)?;
        if count == 0 {
            return Ok(list);
        }
        list.extend_from_slice(&buffer[0..count])?;
    }
    Err(anyhow!("the list of records is too long"))
}

/// The listing of a text in hexadecimal digits.
fn list_digits(heap: Global, digits: &[u8]) -> anyhow::Result<Listing>
    ensures { IfOk result (λ listing.
        (text : List ℕ) → decoded digits.now ≡ Some text → Answers text (admitted text) listing) }
{
    let text = decode(heap, digits)?.ok_or(anyhow!("a text is not in hexadecimal digits"))?;
    Ok(list_input(heap, &text)?)
}

/// Lists the text of every record, prints each listing that is not the recorded one, and counts them.
fn replay(rt: &HostRuntime, list: &[u8]) -> anyhow::Result<()> {
    let mut count = 0usize;
    let mut differing = 0usize;
    let mut rest = list;
    // What is left after the last whole record is looked at below.
    while let Some(record) = next_record(rest) {
        count += 1;
        let listing = list_digits(rt.alloc(), record.digits)?;
        if listing.text().as_bytes() != record.listing {
            differing += 1;
            println!(rt; "text {count} is listed as\n{}", listing.text())?;
        }
        rest = record.rest;
    }
    if !rest.is_empty() {
        return Err(anyhow!("the list does not end with a whole record"));
    }
    println!(rt; "replayed {count} texts, {differing} differ")?;
    Ok(())
}

fn main(rt: HostRuntime) -> anyhow::Result<()> {
    let list = read_list(&rt)?;
    replay(&rt, &list)
}
