//! One list with every kind of step, against `bench/joint_values.py`.

use crate::TestTask;
use crate::joint_machine_tests::{has_links, has_slot, lacks_slot, run};
use crate::made::{lin, list_of, reveal, share, slots, steer, tell, work};
use crate::rule_tests::{List, numbers, push};
use joint_machine::JointRun;
use listed::Listed;
use std::test::Fail;
use step_lists::{LinOp, Shape, Slots, Step, list_needs};
use tapes::make_tapes;

// What the script prints for the seed 7: the words on the six links.
const LINKS: [&[u64]; 6] = [
    &[
        0x5ECE91F525DEFB5E,
        0xBAE00FFEFA8E386F,
        0x2905EE6FD7F9C69E,
        0xE43928E17F10FFB9,
        0x418C60B8CE572658,
        0x8C0AC7BBD26AD8F1,
        0x16040A8BF159C1EB,
        0xAF53F05A3A15D7FB,
        0x72D22849769CCE95,
        0xDE3B784B7797F32,
        0xC1926EF62A06CCE2,
        0x2A9FDB9B78BAF9B,
        0x403AF4C4E18F28A4,
        0xE188FAA5CCE3D3FE,
        0x48A92818987E23DD,
        0,
        0x6DD5F7CCBB6B6D97,
        0x2DCE60A86628B4E3,
        0x9B6282E18B6D4A7,
        0x97C7500A8549A26A,
        0xA69851199867B042,
        0xAE163F2001BAC18,
    ],
    &[
        0x5ECE91F525DEFB5E,
        0xBAE00FFEFA8E386F,
        0x2905EE6FD7F9C69E,
        0xC9C2227C0885239A,
        0x25CA4C98F17FC904,
        0xBF12AFFF59BE54FF,
        0x496D9E1EF36EA6A8,
        0xC3FED7531C17A90D,
        0x4488628958A05DDE,
        0x46FFAF0508568242,
        0xE773A9E861D5E38D,
        0x29F0A64C657D4CB1,
        0xDE17DF0F37C908,
        0x3B903EAA9545D6B9,
        0xFD526520AD4FA6D2,
        0x7F4F7ADD4782BD7C,
        0xD126D9BDBE7593DB,
        0xBF1834D9950A4ADE,
        0xA3C498EFA9346F66,
        0x525ED669F5C1A2BF,
        0xFA90ADCD6FF169DC,
        0,
        0x6DD5F7CCBB6B6D97,
        0x2DCE60A86628B4E3,
        0x9B6282E18B6D4A7,
        0xE44FF630AD02DA1B,
        0xA8F2986233E18A29,
        0xF359B3D766B56E98,
    ],
    &[
        0x8F643B147612D7A8,
        0x5B5F607C4EE7A432,
        0xCD56B896E4B57FB1,
        0x77B2B9CD32B1FC52,
        0x7F8A980524E144D2,
        0xB834F1F615F5EB70,
        0xFFAAD1756D00B80B,
        0xAC94986B765ADA57,
        0xB1863944FC144E73,
        2,
        0,
        1,
        0xAF4C4235BE1953A9,
        0x796F8C80B2A31352,
        0x6145D024718476C7,
        0x76B9D836606AC7AE,
        0x8117A23D8EA6A2CF,
        0x51E47F56497BC650,
        0x8E0A32F68AA1E820,
        0x19BD9AB9EBD4790A,
        0xC79D4EF944A38C93,
        0x78F3C5AA0770B045,
        0x61E00653B43AD13C,
        0x61B1B864B79B2D5D,
        0x87E5B35C2385066B,
        0x1DE928DAF6375EBB,
        0x11C315888CE2748C,
        0x362AA0ED4E26B354,
        0xE99240D4A8AC5894,
        0xDC295D72663B5A48,
        1,
    ],
    &[
        0x77B2B9CD32B1FC52,
        0x7F8A980524E144D2,
        0xB834F1F615F5EB70,
        0xE3BEB1DB86405229,
        0x87E0FBB8B49AB002,
        0xB0A47604A7BB5F31,
        0xD98BCDB6B3B23C9E,
        0xC0C420817128E116,
        0xFD78C100572315FF,
        0x614C92EC8CE3E7C4,
        0x2405236B0045344C,
        0xB293FC3583F093FB,
        0x9F6D24EFB2B9F255,
        0xCED6BB97680F3DBF,
        0x16E63EBF0807AA50,
        0xC5D64091C93DCA94,
        0x9AE79FA70251A47E,
        0x960B5C1524972FA1,
        1,
    ],
    &[
        0xE958CA89A8E29A9,
        0xEE55736AACC0EA9A,
        0x4C11E4833EFB0C62,
        0x89792C1FEDB1CE6F,
        0x229CF388063F9412,
        0x86E2E7AA05480772,
        0x1FE01D8,
        0,
        0x1FE0158,
        0xDBF6509F4D58A29D,
        0x307D1AC254308B75,
        0xD756A03E5303664,
    ],
    &[
        0x46A619687E97F433,
        0x7E952CE4BF986D36,
        0x72441769BD0B2B4E,
        0xB6C74F6B9E6E1EA3,
        0x6F6A4F386A4D735A,
        0xF50E5BCDA4B413AD,
        0xC09A84B82478E8A,
        0xDA9B65037EF5FEE1,
        0x6B4EFF0903195719,
        0x6C245E2B658CF8CA,
        0xBC60FA74B1D39966,
        0xB1FEC045472D54D7,
        0x49DBCF8072E7DCB9,
        0x46C484A1D0085D7F,
        0xA5A31CFBACD23263,
        0xC2C2EE565FBE3CF8,
        0xFC237F669571B822,
        0x2434698DCDEFEB3C,
        0xF3FCE07C871B79C0,
        0x7375DF73AAFDFCEA,
        0x4A22016742AC75E9,
    ],
];

// Registers 0 to 4 by shares and ands.
fn push_ands(rt: &HostRuntime, list: &mut List) -> Result<(), Fail> {
    share(list, 1, 0)?;
    let words = Listed::from_slice(rt.alloc(), &[7u64, 8, 9])?;
    push(list, Step::Const { words })?;
    push(list, Step::And { left: 0, right: 1 })?;
    share(list, 2, 0)?;
    push(list, Step::And { left: 2, right: 3 })
}

// Registers 5 to 11 by each linear operation.
fn push_lins(rt: &HostRuntime, list: &mut List) -> Result<(), Fail> {
    lin(list, LinOp::Xor(0, 3))?;
    lin(list, LinOp::Not(5))?;
    lin(list, LinOp::Left(6, 3))?;
    lin(list, LinOp::Right(7, 60))?;
    lin(list, LinOp::Mask(6, 0xFF_00FF))?;
    lin(list, LinOp::Spread(0))?;
    let sources = numbers(rt, &[9, 4])?;
    let places = numbers(rt, &[5, 0, 2])?;
    lin(list, LinOp::Gather { sources, places })
}

// Registers 12 to 16, and slots of all parties.
fn push_moves(rt: &HostRuntime, list: &mut List) -> Result<(), Fail> {
    work(rt, list, 2, TestTask::Turns, 0, Shape::OrderOf(3))?;
    steer(rt, list, 2, 2, &[11, 10])?;
    reveal(rt, list, 3, &[12, 13], &[1, 0])?;
    work(rt, list, 3, TestTask::Doubles, 1, Shape::Words(3))?;
    tell(list, 3, 1, 2)?;
    push(list, Step::Flag { party: 1, slot: 1 })?;
    share(list, 1, 2)
}

// Register 17, and a flag behind which nothing is done.
fn push_stop(rt: &HostRuntime, list: &mut List) -> Result<(), Fail> {
    reveal(rt, list, 1, &[16], &[0])?;
    push(list, Step::Flag { party: 2, slot: 1 })?;
    tell(list, 2, 3, 0)
}

fn every_kind(rt: &HostRuntime) -> Result<List, Fail> {
    let mut list = list_of(rt, &[3, 1], &[3, 1], &[])?;
    push_ands(rt, &mut list)?;
    push_lins(rt, &mut list)?;
    push_moves(rt, &mut list)?;
    push_stop(rt, &mut list)?;
    Ok(list)
}

fn first_slots(rt: &HostRuntime) -> Result<Slots, Fail> {
    let first: [&[u64]; 2] = [&[0x1111, 0x2222, 0x3334], &[0]];
    let second: [&[u64]; 2] = [&[2, 0x5555, 0x6667], &[1]];
    slots(rt, &first, &second, &[])
}

fn run_of_every_kind(rt: &HostRuntime) -> Result<JointRun, Fail> {
    let list = every_kind(rt)?;
    let slots = first_slots(rt)?;
    let schedule = list_needs(rt.alloc(), &list)?;
    let tapes = make_tapes(rt.alloc(), &schedule, 7)?;
    run(rt, &list, &slots, &tapes)
}

fn has_slots(run: &JointRun) -> bool {
    has_slot(run, 1, 2, &[0x1FE01D8, 0, 0x1FE0158])
        && has_slot(run, 1, 3, &[0, 0x1FE0158, 0x1FE01D8])
        && has_slot(run, 2, 2, &[2, 0, 1])
        && has_slot(run, 3, 0, &[0, 0xFFFF_FFFF_FFFF_FFFF, 0])
        && has_slot(run, 3, 1, &[0xFF00EC, 0, 0xFF00AC])
        && has_slot(run, 3, 2, &[0x1FE01D8, 0, 0x1FE0158])
        && lacks_slot(run, 3, 3)
}

#[test]
fn every_kind_of_step_is_as_the_scripts(rt: HostRuntime) -> Result<(), Fail> {
    let run = run_of_every_kind(&rt)?;
    assert!(rt; has_links(&run, &LINKS) && has_slots(&run) && run.stopped() == Some(1));
    Ok(())
}
