// Numbers by descending weight.
ghost use Rattle.std.specs.Prelude.{◌≡◌, [], IfOk, length, map, slice_index_or};
ghost use Rattle.std.specs.List.{enumerate_from};
ghost use Rattle.keep_spec.specs.Members.{numbers_from};
ghost use Rattle.keep_spec.specs.Order.{by_weight, service_weight, service_order, IsByWeight};
ghost use Rattle.keep_order.specs.Candidates.{candidate};

use crate::weights::weight;
use keep_spec::{Digest, NoMemory, Uuid};
use std::alloc::Global;
use std::cmp::Reverse;

/// A number with its weight. The heavier comes first, and of two that are as heavy the lower number.
#[derive(Clone, Copy, PartialEq, Eq, PartialOrd, Ord)]
struct Candidate {
    weight: Reverse<[u8; 32]>,
    number: u32,
}

fn candidates(alloc: Global, weights: &[[u8; 32]]) -> Result<Vec<Candidate>, NoMemory>
    ensures { IfOk result (λ v. v.items ≡ map candidate (enumerate_from 0 weights.now)) }
{
    let mut candidates = Vec::with_capacity(alloc, weights.len())?;
    for (place, weight) in weights.iter().enumerate() {
        let Ok(number) = u32::try_from(place) else {
            return Err(NoMemory);
        };
        let candidate = Candidate {
            weight: Reverse(*weight),
            number,
        };
        if candidates.push(candidate).is_err() {
            return Err(NoMemory);
        }
    }
    Ok(candidates)
}

/// The places of a list of weights by descending weight, at a tie the lower place first.
pub fn by_weight(alloc: Global, weights: &[[u8; 32]]) -> Result<Vec<u32>, NoMemory>
    ensures list { IfOk result (λ v. v.items ≡ by_weight (λ n. slice_index_or weights.now n []) (numbers_from 0 (length weights.now))) }
    ensures sorted { IfOk result (λ v. IsByWeight (λ n. slice_index_or weights.now n []) (length weights.now) v.items) }
{
    let mut candidates = candidates(alloc, weights)?;
    candidates.sort_unstable();
    numbers_of(alloc, &candidates)
}

fn numbers_of(alloc: Global, candidates: &[Candidate]) -> Result<Vec<u32>, NoMemory>
    ensures { IfOk result (λ v. v.items ≡ map (λ c. c.number) candidates.now) }
{
    let mut numbers = Vec::with_capacity(alloc, candidates.len())?;
    for candidate in candidates {
        if numbers.push(candidate.number).is_err() {
            return Err(NoMemory);
        }
    }
    Ok(numbers)
}

/// The places of services, given by their UUIDs, in the order in which they are asked for a block: by descending weight, at a
/// tie the lower place first. Takes one MD5 a service.
pub fn order(alloc: Global, digest: &Digest, services: &[Uuid]) -> Result<Vec<u32>, NoMemory>
    ensures list { IfOk result (λ v. v.items ≡ service_order digest.now services.now) }
    ensures sorted { IfOk result (λ v. IsByWeight (service_weight digest.now services.now) (length services.now) v.items) }
{
    let mut weights = Vec::with_capacity(alloc, services.len())?;
    for service in services {
        if weights.push(weight(digest, service)).is_err() {
            return Err(NoMemory);
        }
    }
    by_weight(alloc, &weights)
}
