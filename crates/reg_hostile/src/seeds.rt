//! What is changed at random: images and scripts that are good.
use crate::hives::{Subject, scripted};
use anyhow::Result;
use reg_fixtures::{drafted, put_changes};
use std::alloc::Global;

/// How many scripts there are.
pub const SCRIPTS_LEN: usize = 5;

/// Scripts that are accepted.
const SCRIPTS: [&str; SCRIPTS_LEN] = [
    "\
at 7
root 983103
create 0 =b 983103
create 0 =A\\c\\D\\e 983103 x0102030405
set 1 =v 4 x01000000
set 1 = 1 x
set 2 =Name%20two 3 x000102030405060708090a0b0c0d0e0f
query 1 =V 4
enumkey 0 0 255
enumvalue 1 1 255 10
info 0
",
    "\
root 983103
create 0 =Parent\\Child 983103
create 0 =parent\\other 983103 x01
create 0 =Parent\\Third 983103 x01
notify 0 15 1
notify 1 268435468 0
notify 3 8 1
delkey 0 =Parent\\Other
at 18446744073709551615
setsec 1 x0200
notice
notice
getsec 1 20
getsec 3 1
delvalue 1 =no
set 1 =no 4294967295 x00
delvalue 1 =NO
deltree 0 =Parent
notice
notice
query 1 = -
create 0 =Parent 983103
close 0
close 1
",
    "\
as 3
root 65545
as 0
root 131097
create 1 =x 1
open 1 = 1
as 63
at 9
hive 0
root 983103
create 2 =%41%7f!\\a\\b\\c\\d\\e\\f\\g\\h 983103 x00ff
create 2 =a! 131078
set 4 =twice 7 x0011223344
set 4 =TWICE 7 x00112233445566
set 4 =thrice 7 x0011
notify 4 4 1
delvalue 4 =twice
notice
as 0
notice
",
    "\
root 983103
create 0 =q 983103
create 0 =w 983103
create 0 =e 983103
create 0 =r 983103
create 0 =t 983103
create 0 =y 983103
notify 0 1 0
notify 3 1 0
notify 1 4 1
notify 1 4 0
delkey 0 =e
delkey 0 =t
create 0 =u 983103
set 1 =a 1 x00
notice
notice
notice
notice
set 1 =b 1 x0000000000
set 1 =c 1 x00000000000000000000
delvalue 1 =b
set 1 =d 1 x000000000000000000000000
deltree 1 =
deltree 0 =
info 0
",
    "",
];

/// The script of a number; an empty one where there is none.
pub fn script(number: usize) -> &'static [u8] {
    match SCRIPTS.get(number) {
        Some(script) => script.as_bytes(),
        None => b"",
    }
}

/// Where the records of the image with every record end, and the segments begin.
pub const RECORDS_END: usize = 4096 + 864;

/// The cells of the image with every record, as a table of reg_fixtures; the last three are the segments.
const RECORDS: &str = "\
sk 0 0 0 4 x01000480
sk 0 0 0 18 x616e6f746865722064657363726970746f72
nk 32 0 0 - 0 - @1 - 0 =Below
lf @3
nk 24 0 1 @4 0 - @2 - 0 x5700690064006500
fill 1 x436c617373206f662061206b6579
vk 2147483651 66051 3 1 =Short
vk 2147483648 - 3 0 x4c006f006e006700
fill 1 x64617461206f66207477656e7479206279746573
vk 20 @9 3 0
row 864 17216 17264
db 3 @11
vk 16384 @12 3 1 =Large
row @7 @8 @10 @13
nk 32 0 0 - 4 @14 @2 @6 14 =Valued
nk 32 0 0 - 0 - @1 - 0 =Plain
lh @16 @15
li @5
lf
ri @17 @18 @19
nk 44 0 1 @20 0 - @1 - 0 =ROOT
fill 16344 x01
fill 40 x02
fill 4 x03";

/// Its root is the last cell before the segments. Fields that are ignored: key nodes name no parent, and have 0 for their volatile keys,
/// as the lists have for their hints.
const CHANGES: &str =
    "36 08030000, 44 00000000, 4228 ffffffff, 4244 00000000, 4308 00000000, 4332 ffffffff, \
4348 00000000, 4644 ffffffff, 4660 00000000, 4732 ffffffff, 4748 00000000, 4812 00000000, 4820 00000000, 4892 ffffffff, 4908 00000000";

/// An image with every kind of record in every form that is read: lists of all four forms, a list of none, names of two bytes a
/// character, classes, marks, data in its value, in a cell and in segments, two securities.
pub fn every_record(alloc: Global) -> Result<Vec<u8>> {
    let mut image = drafted(alloc, 5, RECORDS)?;
    put_changes(alloc, &mut image, CHANGES)?;
    Ok(image)
}

/// The images that are changed at random.
pub fn images<H: Subject>(alloc: Global) -> Result<Vec<Vec<u8>>> {
    let mut images = Vec::new(alloc);
    images.push(every_record(alloc)?)?;
    for number in 0..SCRIPTS_LEN {
        images.push(scripted::<H>(alloc, script(number))?)?;
    }
    Ok(images)
}
