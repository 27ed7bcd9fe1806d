//! The words of the startup code, the zero-init code and the relocator.

ghost use Rattle.std.specs.Prelude.{◌≡◌};
ghost use Rattle.boot_code.specs.Words.{boot_list, relocator_list, zero_list};

/// The words of the startup code; its table follows them.
pub fn boot_words() -> [u32; 42]
    ensures { result ≡ boot_list }
{
    [
        0xE28F_00A0,
        0xE8B0_000E,
        0xE353_0000,
        0x0A00_001B,
        0xE152_0001,
        0x8A00_000B,
        0xE253_3020,
        0x3A00_0003,
        0xE8B1_0FF0,
        0xE8A2_0FF0,
        0x1AFF_FFFA,
        0xEAFF_FFF4,
        0xE283_3020,
        0xE491_4004,
        0xE482_4004,
        0xE253_3004,
        0x1AFF_FFFB,
        0xEAFF_FFEE,
        0xE081_1003,
        0xE082_2003,
        0xE253_3020,
        0x3A00_0003,
        0xE931_0FF0,
        0xE922_0FF0,
        0x1AFF_FFFA,
        0xEAFF_FFE6,
        0xE283_3020,
        0xE531_4004,
        0xE522_4004,
        0xE253_3004,
        0x1AFF_FFFB,
        0xEAFF_FFE0,
        0xE3A0_4000,
        0xE8B0_000C,
        0xE353_0000,
        0x0A00_0003,
        0xE482_4004,
        0xE253_3004,
        0x1AFF_FFFC,
        0xEAFF_FFF8,
        0xE590_0000,
        0xE12F_FF10,
    ]
}

/// The words at 40 of an AIF header: the zero-init code, and four words 0.
pub fn zero_words() -> [u32; 16]
    ensures { result ≡ zero_list }
{
    [
        0xE24E_000C,
        0xE590_1014,
        0xE590_2018,
        0xE590_3020,
        0xE080_0001,
        0xE080_0002,
        0xE3A0_1000,
        0xE353_0000,
        0x1480_1004,
        0x1253_3004,
        0x1AFF_FFFC,
        0xE1A0_F00E,
        0,
        0,
        0,
        0,
    ]
}

/// The words of the relocator; its list follows them.
pub fn relocator_words() -> [u32; 15]
    ensures { result ≡ relocator_list }
{
    [
        0xE24E_0008,
        0xE590_1028,
        0xE050_1001,
        0xE580_0028,
        0xE590_2000,
        0xE580_2004,
        0x01A0_F00E,
        0xE28F_2018,
        0xE492_3004,
        0xE373_0001,
        0x1790_4003,
        0x1084_4001,
        0x1780_4003,
        0x1AFF_FFF9,
        0xE1A0_F00E,
    ]
}
