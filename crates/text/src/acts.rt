// What each byte may begin or continue, by mode.
ghost use Rattle.text.specs.Outline.{IsActs};

// What each byte leads to: a row for each mode, from 0 to Z, and a column for each class, from 0 to Z.
// An entry is the next mode or an act: [ and { open, ] and } close, c is a comma, n begins a name, e ends a string, _ is no JSON.
const ACTS: [[u8; 43]; 43] = [
    // The first byte of each class.
    // _w "\[]{},:-+.018ACDEabeflnrstu/x89ACEEEFFF
    //                                  000201D014
    *b"______________TTTTTTTTTTT__________________", // 0 the last digit
    *b"______________00000000000__________________", // 1 a digit and one more
    *b"______________11111111111__________________", // 2 a digit and two more
    *b"_________________________________TTT_______", // 3 the last byte of a character
    *b"_________________________________333_______", // 4 its last two bytes
    *b"_________________________________444_______", // 5 its last three
    *b"___________________________________3_______", // 6 after E0
    *b"_________________________________33________", // 7 after ED
    *b"__________________________________44_______", // 8 after F0
    *b"_________________________________4_________", // 9 after F4
    *b"_____________________;_____________________", // : alse
    *b"_________________________<_________________", // ; lse
    *b"____________________________=______________", // < se
    *b"_______________________A___________________", // = e
    *b"___________________________?_______________", // > rue
    *b"______________________________=____________", // ? ue
    *b"______________________________L____________", // @ ull
    *b"_AA___]_}c_________________________________", // A after a value
    *b"___TT_________________T_T_TT_TUT___________", // B after \
    *b"_CC_______V________________________________", // C a colon
    *b"______________11HH___HH____________________", // D after \uD
    *b"_EET_[]{___J__ZWW_______:_@__>_____________", // E a value or ]
    *b"_AA___]_}c____FFF___X__X___________________", // F in the fraction
    *b"______________FFF__________________________", // G after the point
    *b"______________IIIIIIIIIII__________________", // H the high surrogate's last two digits
    *b"______________PPPPPPPPPPP__________________", // I its last digit
    *b"______________ZWW__________________________", // J after -
    *b"_AA___]_}c____KKK__________________________", // K in the exponent
    *b"_________________________O_________________", // L ll
    *b"_MMn____}__________________________________", // M a name or }
    *b"_NNn_______________________________________", // N a name
    *b"_________________________A_________________", // O l
    *b"____Q______________________________________", // P \ of the low surrogate
    *b"______________________________R____________", // Q its u
    *b"___________________S_______________________", // R its D
    *b"__________________111__11__________________", // S its digit C to F
    *b"__TeBTTTTTTTTTTTTTTTTTTTTTTTTTTTT___3647859", // T in a string
    *b"______________22222D22222__________________", // U after \u
    *b"_VVT_[_{___J__ZWW_______:_@__>_____________", // V a value
    *b"_AA___]_}c___GWWW___X__X___________________", // W in a whole number
    *b"___________YY_KKK__________________________", // X after e
    *b"______________KKK__________________________", // Y after the exponent's sign
    *b"_AA___]_}c___G______X__X___________________", // Z after 0
];

// The table, to be lent for a whole text.
pub fn table() -> [[u8; 43]; 43]
    ensures { IsActs result }
{
    ACTS
}
