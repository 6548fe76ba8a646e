// The byte classes of JSON: bytes that the grammar nowhere tells apart. `specs/Class.antt` has their ranges.
ghost use Rattle.text.specs.Class.{IsClasses};

// The class of each byte, a character from 0 to Z; 32 bytes a line.
const CLASSES: [u8; 256] = *b"\
    00000000011001000000000000000000\
    2P3PPPPPPPP<9;=O>???????@@:PPPPP\
    PAABCDBPPPPPPPPPPPPPPPPPPPP546PP\
    PEFBCGHPPPPPIPJPPPKLMNPPPPP7P8PP\
    QQQQQQQQQQQQQQQQRRRRRRRRRRRRRRRR\
    SSSSSSSSSSSSSSSSSSSSSSSSSSSSSSSS\
    00TTTTTTTTTTTTTTTTTTTTTTTTTTTTTT\
    UVVVVVVVVVVVVWVVXYYYZ00000000000";

// The table, to be lent for a whole text: a constant array is made anew wherever it is read.
pub fn table() -> [u8; 256]
    ensures { IsClasses result }
{
    CLASSES
}
