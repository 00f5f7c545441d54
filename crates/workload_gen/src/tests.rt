use crate::generate;
use query_json::{Part, read};
use rand_core::{Rng, SeedableRng};
use rand_xoshiro::Xoshiro256PlusPlus;
use std::test::Fail;

// The words that SplitMix64 and xoshiro256++ give for this seed, computed by another program.
#[test]
fn first_words_of_seed_zero(rt: HostRuntime) {
    let mut rng = Xoshiro256PlusPlus::seed_from_u64(0);
    for expected in [
        5987356902031041503u64,
        7051070477665621255,
        6633766593972829180,
        211316841551650330,
        9136120204379184874,
    ] {
        assert_eq!(rt; rng.next_u64(), expected);
    }
}

// FNV-1a.
fn fingerprint(bytes: &[u8]) -> u64 {
    let mut hash = 0xcbf2_9ce4_8422_2325u64;
    for byte in bytes {
        hash = (hash ^ *byte as u64).wrapping_mul(0x0100_0000_01b3);
    }
    hash
}

// Lengths, relations, joins and fingerprints are those of another program, written in Python.
#[test]
fn three_numbers_give_the_known_workloads(rt: HostRuntime) -> Result<(), Fail> {
    let alloc = rt.alloc();
    for (number, length, relations, joins, hash) in [
        (0u64, 7500usize, 59usize, 64usize, 0x4e42_3712_4bdd_6082u64),
        (7, 6548, 53, 52, 0xb2d8_3588_0e57_fe29),
        (u64::MAX, 8970, 75, 74, 0x0d12_2af9_6de8_1d01),
    ] {
        let bytes = generate(alloc, number)?;
        assert_eq!(rt; bytes.len(), length, "bytes of {number}");
        assert_eq!(rt;
            fingerprint(bytes.as_slice()),
            hash,
            "fingerprint of {number}"
        );
        let workload = read(alloc, bytes.as_slice()).ok().ok_or("a fault")?;
        let mut found = (0usize, 0usize, 0usize);
        for i in 0..workload.len() {
            if let Part::Accepted(named) = &workload.entry(i).part {
                found.0 = found.0.saturating_add(1);
                found.1 = found.1.saturating_add(named.query.rels().len());
                found.2 = found.2.saturating_add(named.query.preds().len());
            }
        }
        assert_eq!(rt;
            found,
            (8, relations, joins),
            "queries, relations and joins of {number}"
        );
    }
    Ok(())
}
