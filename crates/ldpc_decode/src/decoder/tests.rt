ghost use Rattle.std.specs.Prelude.{◌≡◌, ◌+◌, ◌*◌, ◌/◌, ◌≤◌, All, IfOk, length};
ghost use Rattle.ssd_geo.specs.Codewords.{word_bits};
ghost use Rattle.ssd_geo.specs.RowRule.{IsWithin};

use crate::{Decoder, Lanes, Outcome};
use qc_matrix::Code;
use std::alloc::{AllocError, Global};
use std::test::Fail;

const EACH_CHOICE: [Lanes; 5] = [
    Lanes::One,
    Lanes::Four,
    Lanes::Eight,
    Lanes::Sixteen,
    Lanes::ThirtyTwo,
];

/// The codeword 01 83 0b with bit 0 turned.
const ONE_FLIP: [i8; 20] = [
    32, 32, 32, 32, 32, 32, 32, 32, -32, -32, 32, 32, 32, 32, 32, -32, -32, -32, 32, -32,
];

/// Values that a fourth iteration corrects, and no earlier one.
const FOUR_ITERATIONS: [i8; 20] = [
    -6, -24, -48, 17, -39, -38, -28, 47, 35, 33, 3, -24, 21, 28, -36, -16, -2, -21, -9, 33,
];

fn small_decoder(alloc: Global, iterations: u8, lanes: Lanes) -> Result<Decoder, Fail>
    requires iterations_low { 1 ≤ iterations }
    requires iterations_high { iterations ≤ 64 }
    ensures { IfOk result (λ decoder. (decoder.code.z ≡ 4) × (decoder.code.nb ≡ 5)) }
{
    let code = Code::read(
        alloc,
        &[0, -1, 1, 0, -1, -1, 2, 0, 0, 0, 3, 0, 1, -1, 0],
        3,
        5,
        4,
    )?;
    Ok(Decoder::new(alloc, code, iterations, lanes)?)
}

#[test]
fn one_iteration_corrects_a_turned_bit(rt: HostRuntime) -> Result<(), Fail> {
    for lanes in EACH_CHOICE {
        let mut decoder = small_decoder(rt.alloc(), 8, lanes)?;
        let mut word = [0u8; 3];
        let outcome = decoder.decode(&ONE_FLIP, &mut word);
        assert_eq!(rt; outcome, Outcome::Found { iterations: 1 });
        assert_eq!(rt; word, [0x01, 0x83, 0x0b]);
        let want = [
            -20i16, 84, 84, 80, 80, 50, 80, 80, -90, -60, 74, 108, 32, 62, 80, -80, -62, -32, 84,
            -84,
        ];
        assert_eq!(rt; decoder.p.as_slice(), want.as_slice());
    }
    Ok(())
}

#[test]
fn a_codeword_takes_no_iteration(rt: HostRuntime) -> Result<(), Fail> {
    let mut decoder = small_decoder(rt.alloc(), 8, Lanes::Four)?;
    let mut values = ONE_FLIP;
    values[0] = -32;
    let mut word = [0u8; 3];
    assert_eq!(rt;
        decoder.decode(&values, &mut word),
        Outcome::Found { iterations: 0 }
    );
    assert_eq!(rt; word, [0x01, 0x83, 0x0b]);
    assert_eq!(rt; decoder.code().z(), 4);
    Ok(())
}

#[test]
fn the_limit_decides_what_is_found(rt: HostRuntime) -> Result<(), Fail> {
    let mut once = small_decoder(rt.alloc(), 1, Lanes::One)?;
    let mut thrice = small_decoder(rt.alloc(), 3, Lanes::One)?;
    let mut often = small_decoder(rt.alloc(), 4, Lanes::One)?;
    let mut word = [0xaau8; 3];
    assert_eq!(rt;
        once.decode(&ONE_FLIP, &mut word),
        Outcome::Found { iterations: 1 }
    );
    word = [0xaa; 3];
    assert_eq!(rt;
        thrice.decode(&FOUR_ITERATIONS, &mut word),
        Outcome::NotFound
    );
    assert_eq!(rt; word, [0xaa; 3]);
    assert_eq!(rt;
        often.decode(&FOUR_ITERATIONS, &mut word),
        Outcome::Found { iterations: 4 }
    );
    Ok(())
}

/// A small code, one of its codewords, and a sum of what a plain decoder answers on 64 noisy copies of it.
#[derive(Drop)]
struct Noisy<'a> {
    z: u16,
    entries: [i16; 18],
    codeword: &'a [u8],
    sum: u64,
}

/// The next value of a bit: mostly of its sign, and from -53 to 53.
fn noisy_value(bit: bool, noise: u64) -> i8
    ensures { IsWithin 127 result }
{
    let level = ((noise >> 33) % 64) as i8 - 10;
    if bit { -level } else { level }
}

/// Values of `bits` bits of a codeword, and the noise after them.
fn noisy_values(
    alloc: Global,
    codeword: &[u8],
    bits: usize,
    noise: u64,
) -> Result<(Vec<i8>, u64), AllocError>
    requires { bits ≤ 8 * length codeword.now }
    ensures count { IfOk result (λ made. length made.0.items ≡ bits) }
    ensures values { IfOk result (λ made. All (IsWithin 127) made.0.items) }
{
    let mut values = Vec::new(alloc);
    let mut noise = noise;
    for i in 0..bits {
        noise = noise
            .wrapping_mul(6364136223846793005)
            .wrapping_add(1442695040888963407);
        let bit = (codeword[i / 8] >> (i % 8)) & 1 == 1;
        values.push(noisy_value(bit, noise))?;
    }
    Ok((values, noise))
}

/// Adds the iterations (255: none was enough) and the bytes found to a sum.
fn with_outcome(decoder: &mut Decoder, values: &[i8], word: &mut [u8], sum: u64) -> u64
    requires values_len { length values.now ≡ word_bits decoder.old.code }
    requires values_within { All (IsWithin 127) values.now }
    requires word_len { length word.old ≡ (word_bits decoder.old.code + 7) / 8 }
    ensures { decoder.new ≡ decoder.old }
{
    match decoder.decode(values, word) {
        Outcome::NotFound => sum.wrapping_mul(31).wrapping_add(255),
        Outcome::Found { iterations } => {
            let mut sum = sum.wrapping_mul(31).wrapping_add(u64::from(iterations));
            for byte in word {
                sum = sum.wrapping_mul(31).wrapping_add(u64::from(*byte));
            }
            sum
        }
    }
}

/// The sum over 64 noisy copies of a codeword.
fn sum_of_outcomes(alloc: Global, decoder: &mut Decoder, codeword: &[u8]) -> Result<u64, AllocError>
    requires { length codeword.now ≡ (word_bits decoder.old.code + 7) / 8 }
{
    let bits = usize::from(decoder.code().nb()) * usize::from(decoder.code().z());
    let mut word = vec![in alloc; 0u8; codeword.len()]?;
    let mut noise = u64::from(decoder.code().z());
    let mut sum = 0u64;
    'copies: for _ in 0..64 {
        let (values, after) = noisy_values(alloc, codeword, bits, noise)?;
        noise = after;
        sum = with_outcome(decoder, values.as_slice(), word.as_mut_slice(), sum);
    }
    Ok(sum)
}

/// A decoder of a code of three base rows and six base columns.
fn decoder_of(alloc: Global, lanes: Lanes, z: u16, entries: &[i16]) -> Result<Decoder, Fail>
    requires z_low { 4 ≤ z }
    requires z_high { z ≤ 1024 }
    requires whole { length entries.now ≡ 18 }
    ensures { IfOk result (λ decoder. word_bits decoder.code ≡ 6 * z) }
{
    let code = Code::read(alloc, entries, 3, 6, z)?;
    Ok(Decoder::new(alloc, code, 8, lanes)?)
}

#[test]
fn noisy_words_are_decoded_as_by_a_plain_decoder(rt: HostRuntime) -> Result<(), Fail> {
    let cases = [
        Noisy {
            z: 4,
            entries: [2, 0, -1, 3, 0, -1, -1, 2, 1, 0, 0, 0, 0, 0, 3, 3, -1, 0],
            codeword: &[34, 32, 78],
            sum: 64811895017461100,
        },
        Noisy {
            z: 8,
            entries: [0, 1, 5, 2, 0, -1, 7, 2, 7, 0, 0, 0, 0, 0, -1, 2, -1, 0],
            codeword: &[23, 124, 203, 186, 217, 197],
            sum: 14138310158628187506,
        },
        Noisy {
            z: 13,
            entries: [1, 0, 11, 3, 0, -1, 4, 10, -1, 0, 0, 0, -1, 12, 5, 3, -1, 0],
            codeword: &[100, 214, 63, 205, 117, 192, 56, 83, 79, 4],
            sum: 9407269842297545245,
        },
        Noisy {
            z: 16,
            entries: [
                15, 9, -1, 14, 0, -1, 15, 10, 14, 0, 0, 0, 11, 8, 13, 14, -1, 0,
            ],
            codeword: &[142, 235, 8, 65, 121, 244, 132, 205, 46, 101, 64, 236],
            sum: 8101800172127180335,
        },
    ];
    for case in &cases {
        assert!(rt; case.z >= 4 && case.z <= 1024);
        assert_eq!(rt; case.codeword.len(), (6 * usize::from(case.z) + 7) / 8);
        for lanes in EACH_CHOICE {
            let mut decoder = decoder_of(rt.alloc(), lanes, case.z, &case.entries)?;
            let sum = sum_of_outcomes(rt.alloc(), &mut decoder, case.codeword)?;
            let z = case.z;
            assert_eq!(rt; sum, case.sum, "lifting size {z}");
        }
    }
    Ok(())
}
