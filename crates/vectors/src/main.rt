// Prints what the ciphers answer to the published test vectors. Then it answers standard input: to each line with a
// cipher's name, a key and a block, both in hexadecimal, the enciphered block.
#![tactic(auto)]

ghost use Rattle.std.specs.Prelude.{◌≡◌};
ghost use Rattle.vectors.specs.Asked.{asked_of};
ghost use Rattle.vectors.specs.Published.{Published};

mod mac;

use cipher::{Block, Cipher, Key};
use ciphers::CipherName;
use noekeon::Noekeon;

// The bytes 00, 11 and so on up to ff, the first of them the lowest.
const MAC_KEY: u128 = 0xffee_ddcc_bbaa_9988_7766_5544_3322_1100;

// The key of the MAC doubled once and twice, and the first eight bytes of the MAC of each message 00, 01, 02 and so on
// of up to 63 bytes.
fn print_macs(rt: &HostRuntime) -> anyhow::Result<()> {
    let once = mac::times_two(MAC_KEY);
    let k1 = u128::from_be_bytes(once.to_le_bytes());
    let k2 = u128::from_be_bytes(mac::times_two(once).to_le_bytes());
    println!(rt; "chaskey-12 k1 {k1:032x}")?;
    println!(rt; "chaskey-12 k2 {k2:032x}")?;
    let mut message = Vec::new(rt.alloc());
    for length in 0..64u8 {
        let tag = mac::mac(MAC_KEY, message.as_slice()).first;
        println!(rt; "chaskey-12 {length} {tag:016x}")?;
        message.push(length)?;
    }
    Ok(())
}

// A key, a block and the answer as numbers of 16 bytes, highest byte first.
fn asked<C: Cipher>(cipher: &mut C, key: u128, block: u128) -> u128
    ensures { result ≡ asked_of (C.Cipher.function cipher.old) key block }
{
    let key = Key::from_bytes(key.to_be_bytes());
    let block = Block::from_bytes(block.to_be_bytes());
    u128::from_be_bytes(cipher.encipher(key, block).to_bytes())
}

fn print_noekeon(rt: &HostRuntime, key: u128, block: u128) -> anyhow::Result<()> {
    let answer = asked(&mut Noekeon, key, block);
    println!(rt; "noekeon {key:032x} {block:032x} {answer:032x}")?;
    Ok(())
}

fn answer(line: &str) -> Option<u128> {
    let mut words = line.split_whitespace();
    let name = words.next()?;
    let key = u128::from_str_radix(words.next()?, 16).ok()?;
    let block = u128::from_str_radix(words.next()?, 16).ok()?;
    let mut cipher: CipherName = name.parse().ok()?;
    Some(asked(&mut cipher, key, block))
}

// That the definitions themselves give published answers, some of those that the compiled code is held to below.
fn definitions_agree() -> bool
    ensures { Published }
{
    true
}

fn run(rt: &HostRuntime) -> anyhow::Result<()> {
    print_macs(rt)?;
    print_noekeon(rt, 0, 0)?;
    print_noekeon(rt, u128::MAX, u128::MAX)?;
    print_noekeon(
        rt,
        0xb165_6851_699e_29fa_24b7_0148_503d_2dfc,
        0x2a78_421b_87c7_d092_4f26_113f_1d13_49b2,
    )?;
    for line in rt.lines(rt.alloc()) {
        match answer(line?.as_str()) {
            Some(block) => println!(rt; "{block:032x}")?,
            None => println!(rt; "unknown")?,
        }
    }
    Ok(())
}

fn main(rt: HostRuntime) -> anyhow::Result<()> {
    run(&rt)
}
