//! The generated workload beside numbers that were worked out apart from it.

ghost use Rattle.std.specs.Prelude.{◌<◌, All, IfOk};

use dash_base::HartId;
use dash_event::Op;
use flat_model::flat_run;
use std::alloc::{AllocError, Global};
use std::test::Fail;
use workload_gen::laws::load_of_generate;
use workload_gen::{generate, image, summary, summary_of, topology, totals};

/// Seeds, and the totals of the 64 counters of each.
static TOTALS: [(u32, [u32; 64]); 3] = [
    (
        0,
        [
            64_229, 64_800, 58_984, 60_106, 53_466, 61_793, 58_162, 59_675, 58_377, 55_647, 61_663,
            61_056, 57_818, 54_020, 58_511, 58_669, 65_539, 62_725, 56_877, 61_253, 58_337, 61_141,
            62_338, 63_809, 59_814, 58_095, 58_313, 58_621, 56_485, 66_587, 57_439, 60_979, 60_604,
            59_870, 61_172, 59_593, 58_605, 62_234, 63_723, 63_802, 56_032, 57_220, 58_869, 52_823,
            64_288, 54_105, 57_854, 64_042, 60_802, 57_540, 57_748, 59_810, 62_683, 55_788, 61_168,
            64_041, 60_017, 60_016, 60_449, 59_935, 52_400, 53_228, 56_249, 57_280,
        ],
    ),
    (
        7,
        [
            59_753, 60_043, 62_363, 56_945, 57_801, 60_719, 61_801, 57_300, 60_608, 63_209, 57_885,
            59_841, 63_125, 56_817, 53_298, 61_673, 62_064, 59_700, 59_920, 63_632, 61_334, 59_033,
            63_061, 58_161, 60_119, 63_353, 55_541, 61_749, 61_718, 63_104, 60_743, 58_640, 57_419,
            57_576, 61_431, 60_846, 61_219, 55_212, 59_826, 57_017, 61_037, 56_825, 64_095, 64_492,
            60_684, 60_707, 57_690, 56_123, 57_251, 59_732, 60_079, 63_593, 56_871, 65_576, 56_106,
            59_985, 58_586, 57_088, 58_787, 55_689, 60_598, 59_651, 60_089, 54_727,
        ],
    ),
    (
        4_294_967_295,
        [
            59_426, 56_728, 62_980, 59_912, 61_366, 60_569, 60_386, 58_769, 57_703, 62_409, 60_034,
            64_093, 60_689, 57_180, 56_859, 57_980, 57_613, 60_711, 61_522, 59_072, 57_474, 59_385,
            59_696, 57_301, 61_076, 65_594, 58_454, 60_666, 66_085, 62_058, 54_751, 57_130, 54_752,
            60_140, 63_251, 63_032, 57_239, 62_791, 65_211, 58_920, 59_560, 52_424, 58_266, 58_282,
            62_248, 57_664, 63_270, 58_955, 62_183, 57_139, 55_282, 64_157, 61_994, 58_878, 58_226,
            60_182, 57_970, 63_838, 63_109, 60_416, 58_021, 63_904, 63_529, 59_341,
        ],
    ),
];

#[test]
fn totals_are_those_worked_out_apart(rt: HostRuntime) -> Result<(), Fail> {
    for (seed, wanted) in &TOTALS {
        let found = totals(rt.alloc(), *seed)?;
        assert_eq!(rt; found.as_slice(), wanted.as_slice());
        let told = summary(rt.alloc(), *seed)?;
        let text = summary_of(rt.alloc(), *seed, 64, 480_448, wanted)?;
        assert_eq!(rt; told.as_slice(), text.as_slice());
    }
    let text = summary_of(rt.alloc(), 7, 64, 480_448, &[59_753, 0])?;
    let wanted = b"seed 7 harts 64 retired 480448\ncounter 0 59753\ncounter 1 0\n";
    assert_eq!(rt; text.as_slice(), wanted.as_slice());
    Ok(())
}

/// The first hart, so many times.
fn first_hart(alloc: Global, count: usize) -> Result<Vec<HartId>, AllocError>
    ensures { IfOk result (λ order. All (λ h. h.0 < 1) order.items) }
{
    let mut order = Vec::new(alloc);
    for _turn in 0..count {
        order.push(HartId(0))?;
    }
    Ok(order)
}

#[test]
fn a_hart_adds_to_a_counter_under_its_lock_word(rt: HostRuntime) -> Result<(), Fail> {
    let topology = topology();
    let image = image(rt.alloc(), 7)?;
    let order = first_hart(rt.alloc(), 32)?;
    let end = flat_run(rt.alloc(), &image, &topology, &order)?;
    let wanted = [
        (26, Op::Ask, 65596, Some(0), Some(1)),
        (27, Op::Load, 33008, Some(0), None),
        (29, Op::Store, 33008, None, Some(32)),
        (30, Op::Unlock, 65596, Some(1), Some(0)),
    ];
    assert_eq!(rt; end.accesses.len(), wanted.len());
    for (a, want) in end.accesses.iter().zip(&wanted) {
        assert_eq!(rt; (a.number, a.op, a.word.0, a.read, a.written), *want);
    }
    let hart = &end.harts[0];
    assert_eq!(rt; (hart.pc(), hart.retired()), (0x1040, 32));
    Ok(())
}

#[test]
fn the_file_of_a_workload_is_loaded(rt: HostRuntime) -> Result<(), Fail> {
    let program = generate(rt.alloc(), 7)?;
    assert_eq!(rt; program.segments.len(), 1);
    let image = load_of_generate(rt.alloc(), 7)?;
    assert_eq!(rt; image.entry(), 0x1000);
    assert_eq!(rt; image.fetch(0x1000), Some(0x0000_04b7));
    assert_eq!(rt; image.fetch(0x1088), Some(0x0000_0073));
    assert_eq!(rt; image.fetch(0x108c), None);
    Ok(())
}
