// The number of a cube in base three: digit i is 0 where input i is free, 1 where it is fixed at 0, 2 where it is fixed at 1.
ghost use Rattle.std.specs.Prelude.{◌≡◌, ◌<◌};
ghost use Rattle.table.specs.Cubes.{Cube};
ghost use Rattle.model.specs.Numbers.{cube_number, spread};
ghost use Rattle.primes.specs.Numbers.{Spreads};

// For each byte the sum of 3^i over its ones.
#[derive(Clone, Copy)]
pub struct SpreadTable {
    pub entries: [u16; 256],
    pub ghost right: { Spreads entries },
}

// The constant table. It is copied here once, for all cubes of a P: each use of a constant array copies it whole.
pub fn spreads() -> SpreadTable {
    SpreadTable { entries: SPREAD }
}

// The sum of 3^i over the ones of a byte.
pub fn spread(spreads: &SpreadTable, b: usize) -> usize
    requires { b < 256 }
    ensures { result ≡ spread b }
{
    usize::from(spreads.entries[b])
}

// The number of a cube: care counts each fixed input once, value once more where it is fixed at 1.
pub fn number(spreads: &SpreadTable, care: usize, value: usize) -> usize
    requires { Cube 8 care value }
    ensures { result ≡ cube_number care value }
{
    spread(spreads, care) + spread(spreads, value)
}

// For each byte the sum of 3^i over its ones.
const SPREAD: [u16; 256] = [
    0, 1, 3, 4, 9, 10, 12, 13, 27, 28, 30, 31, 36, 37, 39, 40, 81, 82, 84, 85, 90, 91, 93, 94, 108,
    109, 111, 112, 117, 118, 120, 121, 243, 244, 246, 247, 252, 253, 255, 256, 270, 271, 273, 274,
    279, 280, 282, 283, 324, 325, 327, 328, 333, 334, 336, 337, 351, 352, 354, 355, 360, 361, 363,
    364, 729, 730, 732, 733, 738, 739, 741, 742, 756, 757, 759, 760, 765, 766, 768, 769, 810, 811,
    813, 814, 819, 820, 822, 823, 837, 838, 840, 841, 846, 847, 849, 850, 972, 973, 975, 976, 981,
    982, 984, 985, 999, 1000, 1002, 1003, 1008, 1009, 1011, 1012, 1053, 1054, 1056, 1057, 1062,
    1063, 1065, 1066, 1080, 1081, 1083, 1084, 1089, 1090, 1092, 1093, 2187, 2188, 2190, 2191, 2196,
    2197, 2199, 2200, 2214, 2215, 2217, 2218, 2223, 2224, 2226, 2227, 2268, 2269, 2271, 2272, 2277,
    2278, 2280, 2281, 2295, 2296, 2298, 2299, 2304, 2305, 2307, 2308, 2430, 2431, 2433, 2434, 2439,
    2440, 2442, 2443, 2457, 2458, 2460, 2461, 2466, 2467, 2469, 2470, 2511, 2512, 2514, 2515, 2520,
    2521, 2523, 2524, 2538, 2539, 2541, 2542, 2547, 2548, 2550, 2551, 2916, 2917, 2919, 2920, 2925,
    2926, 2928, 2929, 2943, 2944, 2946, 2947, 2952, 2953, 2955, 2956, 2997, 2998, 3000, 3001, 3006,
    3007, 3009, 3010, 3024, 3025, 3027, 3028, 3033, 3034, 3036, 3037, 3159, 3160, 3162, 3163, 3168,
    3169, 3171, 3172, 3186, 3187, 3189, 3190, 3195, 3196, 3198, 3199, 3240, 3241, 3243, 3244, 3249,
    3250, 3252, 3253, 3267, 3268, 3270, 3271, 3276, 3277, 3279, 3280,
];
