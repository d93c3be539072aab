// All primes of a table, by care, then value.
ghost use Rattle.std.specs.Prelude.{[], ◌+◌, ◌^◌, ◌≤◌, ◌<◌};
ghost use Rattle.primes.specs.Parts.{PartOrEnd, NotLast, NextPart};
ghost use Rattle.primes.specs.Primes.{FirstTerms, FirstPrime, PrimesBy, AllPrimes};

use crate::cube_table::{self, CubeTable};
use crate::{cube_prime, numbers};
use bits::byte;
use model::Term;

// The first 64 terms of a list, and whether the list has more. An array with its count, since no heap is used here; it holds them where the
// list has more too.
#[derive(Clone, Copy)]
pub struct PrimeList {
    pub terms: [Term; 64],
    pub count: usize,
    pub full: bool,
}

impl PrimeList {
    // The empty list.
    fn empty() -> Self
        ensures { FirstTerms [] result }
    {
        Self {
            terms: [Term::default(); 64],
            count: 0,
            full: false,
        }
    }
}

// A prime of some care, by its value and outputs.
#[derive(Clone, Copy, Debug, PartialEq, Eq)]
struct Found {
    value: usize,
    outputs: u8,
}

// The part of care behind value: the ones of free, all that care lacks, carry past what is not in care.
fn next_part(care: usize, free: usize, value: usize) -> usize
    requires { (care + free + 1 ≤ 512) × NotLast care free value }
    ensures { NextPart care value result }
{
    (value + free + 1) & care
}

// The first prime of care whose value is not below the given one, a part of care or 2^n.
// With 2^n beside care, 2^n is the part behind its last one. No range gives the parts: `next_part` does.
fn first_prime(table: &CubeTable, n: u8, care: usize, value: usize) -> Option<Found>
    requires n_bound { (n ≤ 8) × (care < 2 ^ n) }
    requires part_or_end { PartOrEnd n care value }
    ensures { FirstPrime table.now.outputs n care value result }
{
    let size = byte::bound(n);
    let free = size - 1 - care;
    let mut next = value;
    while next < size {
        if let Some(outputs) = cube_prime::prime_outputs(table, care, next) {
            return Some(Found {
                value: next,
                outputs,
            });
        }
        next = next_part(care + size, free, next);
    }
    None
}

// The primes by the table of the cubes, by rising care, then value. It stops where a 65th comes. One loop walks both: a care is left where
// it has no prime from value on.
fn listed(table: &CubeTable, n: u8) -> PrimeList
    requires { n ≤ 8 }
    ensures { PrimesBy table.now.outputs n result }
{
    let size = byte::bound(n);
    let mut list = PrimeList::empty();
    let mut care: usize = 0;
    let mut value: usize = 0;
    while care < size {
        match first_prime(table, n, care, value) {
            None => {
                care += 1;
                value = 0;
            }
            Some(found) => {
                if list.count == 64 {
                    list.full = true;
                    return list;
                }
                list.terms[list.count] = Term {
                    care: care as u8,
                    value: found.value as u8,
                    outputs: found.outputs,
                };
                list.count += 1;
                value = next_part(care + size, size - 1 - care, found.value);
            }
        }
    }
    list
}

// The primes.
pub fn primes(may: &[u8; 256], n: u8) -> PrimeList
    requires { n ≤ 8 }
    ensures { AllPrimes may.now n result }
{
    let spreads = numbers::spreads();
    let outputs = cube_table::all_cubes(may, &spreads, n);
    let table = CubeTable { spreads, outputs };
    listed(&table, n)
}
