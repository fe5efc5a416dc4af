//! Lines of texts, read: each kind in the versions that have it, and faulty ones.
use std::alloc::Global;
use std::test::Fail;
use tc_histline::{Version, read_line};
use tc_lists::NoMemory;
use tc_names::Names;
use tc_term::Name;

// Lines of each version.
const COMMON: [&[u8]; 57] = [
    b"tucson 1\n",
    b"tucson 2\n",
    b"centre c\n",
    b"centre []\n",
    b"centre 'It\\'s'\n",
    b"agent a\n",
    b"end ended\n",
    b"end blocked\n",
    b"call a 1 out(p(1)) = done\n",
    b"call [] 0 in(p(_0,_1,_0)) = pending\n",
    b"call 'It\\'s' 18446744073709551615 rd([a,b|c]) = tuple [a,b|c]\n",
    b"call a_longer_name_than_a_short_one 12 inp(p) = none\n",
    b"call a 2 rdp(-5) = tuple -5\n",
    b"call a 3 get_spec = spec ''\n",
    b"call a 3 get_spec = spec 'reaction(out(a),true).\\n'\n",
    b"call a 4 set_spec('') = done\n",
    b"call a 4 set_spec('reaction(out(p(_0)),in_r(p(_0))).\\n') = done\n",
    b"call a 4 set_spec('reaction(out(a),request,no(c)).\\n') = done\n",
    b"call a 5 out(a) = over pre\n",
    b"call a 5 inp(a) = over post\n",
    b"call a 5 inp(a) = over post a\n",
    b"give a 1 = done\n",
    b"give a 1 = tuple p(1)\n",
    b"give [] 1 = over post p\n",
    b"look a 7 3 = pending\n",
    b"look a 7 3 = tuple p(1)\n",
    b"look a 7 3 = spec 'x'\n",
    b"look a 7 3 = over pre\n",
    b"look a 7 3 = done\n",
    b"look a 7 3 = none\n",
    b"  1 fired 2\n",
    b"  1 fired 2 put p(1) took q read [r]\n",
    b"  4294967295 failed 3 at 4\n",
    b"  1 failed 3 at 4 took p(1) put 'A b'\n",
    b"1 c done\n",
    b"0 [] tuple p(1)\n",
    b"2 'C' none\n",
    b"3 c pending\n",
    b"4 c spec 'a.\\n'\n",
    b"5 c over pre\n",
    b"6 c over post\n",
    b"7 c denied\n",
    b"8 c not ground\n",
    b"9 c too big\n",
    b"10 c bad spec 0 syntax\n",
    b"10 c bad spec 1 size\n",
    b"10 c bad spec 2 shape\n",
    b"10 c bad spec 3 head\n",
    b"10 c bad spec 4294967295 goal\n",
    b"10 c bad spec 1001 count\n",
    b"11 c waiting\n",
    b"12 c unknown centre\n",
    b"13 c turns spent\n",
    b"14 c poll pending\n",
    b"15 c poll tuple p(1)\n",
    b"16 c poll none\n",
    b"18446744073709551615 c poll over post\n",
];

const ONE: [&[u8]; 1] = [b"1 c full\n"];

const TWO: [&[u8]; 11] = [
    b"1 c full 0 0\n",
    b"1 c full 4000000 18446744073709551615\n",
    b"1 c absent\n",
    b"1 c found p(1)\n",
    b"1 c poll absent\n",
    b"1 c poll found p\n",
    b"call a 1 no(p(_0)) = pending\n",
    b"call a 1 no(p) = absent\n",
    b"call a 1 nop(p) = found p\n",
    b"give a 1 = absent\n",
    b"look a 2 1 = absent\n",
];

// Lines of no version.
const FAULTY: [&[u8]; 44] = [
    b"",
    b"\n",
    b"x\n",
    b"tucson 3\n",
    b"tucson 1",
    b"tucson 1 \n",
    b"centre\n",
    b"centre C\n",
    b"centre 'c'\n",
    b"centre '[]'\n",
    b"centre c \n",
    b"agent  a\n",
    b"end\n",
    b"end ended",
    b"call b 1 out(p(1)) = done\n",
    b"call 'a' 1 out(p(1)) = done\n",
    b"call a 01 out(p(1)) = done\n",
    b"call a 18446744073709551616 out(p(1)) = done\n",
    b"call a 1 out(p(_0)) = done\n",
    b"call a 1 in(p(_1)) = pending\n",
    b"call a 1 out( p(1)) = done\n",
    b"call a 1 out(p(1))  = done\n",
    b"call a 1 out(p(1)) = done \n",
    b"call a 1 out(p(1)) = done",
    b"call a 1 out(p(1)) = tuple p(_0)\n",
    b"call a 1 in(p) = over pre p\n",
    b"call a 1 get_spec() = spec ''\n",
    b"call a 4 set_spec('reaction(out(a),true). ') = done\n",
    b"call a 4 set_spec('reaction(out(a), true).\\n') = done\n",
    b"call a 4 set_spec('reaction(out(a)).\\n') = done\n",
    b"call a 4 set_spec('reaction(out(a),out_r(9223372036854775808)).\\n') = done\n",
    b"give a 1 out(p) = done\n",
    b"look a 1 = pending\n",
    b"look a 1 2 = over post p\n",
    b"  0 fired 1\n",
    b"  1 fired 0\n",
    b"  1 failed 1 at 0\n",
    b" 1 fired 1\n",
    b"  1 fired 4294967296\n",
    b"  1 fired 1 put p(_0)\n",
    b"1 c over post p\n",
    b"1 c no memory\n",
    b"1 c bad spec 4294967296 syntax\n",
    b"1 c poll\n",
];

const NAMES: [&[u8]; 4] = [b"a", b"[]", b"It's", b"a_longer_name_than_a_short_one"];

fn agents(alloc: Global) -> Result<Names, NoMemory> {
    let mut names = Names::new(alloc);
    for bytes in NAMES {
        let name = Name::new(alloc, bytes)?;
        if names.place(&name).is_none() {
            names.add(name)?;
        }
    }
    Ok(names)
}

// How many bytes the line at the front has.
fn size(alloc: Global, version: Version, text: &[u8]) -> Result<Option<usize>, NoMemory> {
    let agents = agents(alloc)?;
    let read = read_line(alloc, version, &agents, text)?;
    Ok(read.map(|(_, size)| size))
}

// The place of the first line that is not read whole, whatever stands behind it.
fn first_unread(
    alloc: Global,
    version: Version,
    lines: &[&[u8]],
) -> Result<Option<usize>, NoMemory> {
    for (place, line) in lines.iter().enumerate() {
        let mut text = Vec::from_slice(alloc, line)?;
        let alone = size(alloc, version, &text)?;
        text.extend_from_slice(b"  1")?;
        if alone != Some(line.len()) || size(alloc, version, &text)? != alone {
            return Ok(Some(place));
        }
    }
    Ok(None)
}

// The place of the first line that is read.
fn first_read(alloc: Global, version: Version, lines: &[&[u8]]) -> Result<Option<usize>, NoMemory> {
    for (place, line) in lines.iter().enumerate() {
        if size(alloc, version, line)?.is_some() {
            return Ok(Some(place));
        }
    }
    Ok(None)
}

#[test]
fn lines_are_read_in_their_versions(rt: HostRuntime) -> Result<(), Fail> {
    let alloc = rt.alloc();
    for version in [Version::One, Version::Two] {
        assert_eq!(rt; first_unread(alloc, version, &COMMON)?, None);
        assert_eq!(rt; first_read(alloc, version, &FAULTY)?, None);
    }
    assert_eq!(rt; first_unread(alloc, Version::One, &ONE)?, None);
    assert_eq!(rt; first_read(alloc, Version::Two, &ONE)?, None);
    assert_eq!(rt; first_unread(alloc, Version::Two, &TWO)?, None);
    assert_eq!(rt; first_read(alloc, Version::One, &TWO)?, None);
    Ok(())
}
