//! Texts that the worked examples are of.

/// A text on one line.
pub const WINDOW: &str = "interface Window { readonly attribute Storage sessionStorage; };";

/// [`WINDOW`] with line ends.
pub const WINDOW_IN_LINES: &str = "
    interface Window {
        readonly attribute Storage sessionStorage;
    };
";

/// A definition of each kind.
pub const KINDS: &str = "\
callback C = undefined ();
callback interface D {};
interface E {};
interface mixin F {};
namespace G {};
dictionary H {};
partial interface I {};
partial interface mixin J {};
partial dictionary K {};
partial namespace L {};
enum M {\"m\"};
typedef long N;
O includes P;
Q implements R;
";

/// Definitions of several kinds, with comments and docstrings.
pub const SOUNDS: &str = "\
/*
 * Sounds, and players of them.
 */

typedef (DOMString or sequence<DOMString>) Names;

enum RepeatMode {
    \"none\",
    \"one\",
    \"all\", // the last comma may stay
};

/// How a player begins.
/// Each member may be left out but the first.
dictionary PlayerOptions {
    required DOMString title;
    /// From nothing to everything.
    unrestricted double volume = 1.0;
    RepeatMode repeat = \"none\";
    sequence<Track>? tracks = [];
};

/// A player of sounds.
[Exposed=(Window, Worker), SecureContext]
interface Player : EventTarget {
    constructor(optional PlayerOptions options = {});

    const unsigned short STOPPED = 0;
    const unsigned short PLAYING = 0x1;

    readonly attribute DOMString title;
    [CEReactions] attribute (Names or Track)? current;
    static readonly attribute long count; // of all players
    attribute EventHandler onended;

    /// Begins to play.
    [NewObject] Promise<undefined> play(optional (DOMString or unsigned long) track);
    undefined stop();
    getter Track? (unsigned long index);
    undefined add([Clamp] octet volume, Track... tracks);

    iterable<DOMString, Track>;
    stringifier;
};

partial interface Player {
    [SameObject] readonly attribute FrozenArray<Track> tracks;
    [Reflect=\"loud\"] attribute (Names or [Clamp] octet)? level;
};

interface mixin Playable {
    readonly attribute unsigned long long length;
    Promise<any> load(ArrayBuffer data, optional record<DOMString, any> details);
};

Player includes Playable;

callback PlayCallback = any (Track track, record<ByteString, double?> details);

[Exposed=Window]
namespace Sounds {
    readonly attribute float loudest;
    boolean canPlay(DOMString type);
};

partial dictionary PlayerOptions {
    object? extra = null;
};
";

/// The texts of the worked examples that `parse` and the program are given, read whole or not.
pub const TEXTS: [&str; 60] = [
    "",
    "  ",
    WINDOW,
    WINDOW_IN_LINES,
    KINDS,
    SOUNDS,
    "interface A {}; // end",
    "interface A {};interface B {}",
    "// c",
    "// c\n",
    "interface mixin {};",
    "interface mixin M {};",
    "interface includes B;",
    "interface A { ///d\n attribute long x; };",
    "interface A { ///d\n void f(); };",
    "interface A { attribute long x; };",
    "interface A { readonly attribute x; };",
    "interface A {}; // c\n///d\ninterface B {};",
    "interface A {};\ninterface _B {};",
    "enum E {\"a\",\"b\",};",
    "enum E {};",
    "/*/*/interface A {};",
    "/*/interface A {};",
    "/**/interface A {};",
    "// c\n///d\ninterface A {};",
    "callback F = undefined (long x);",
    "interface É {};",
    "interface A {};\nenum E {\"a\"};",
    "A includes B;",
    "/*a*/enum/*b*/E/*c*/{/*d*/\"a\"/*e*/,/*f*/}/*g*/;/*h*/",
    "enum E {\"a\"};",
    "enum E {\"a\",};",
    "interface _A{};",
    "interface A {};",
    "interface B {};",
    "interface _Window {};",
    "interface A {};}",
    "interface 9 {};",
    "interface A {}; ///d",
    "interface A",
    "[Exposed=Window] interface Window : EventTarget { readonly attribute Storage sessionStorage; };",
    "interface A {}; /* ",
    "interface A {}; /* x */ /*",
    "interface A {};\n// é\nenum E {\"é\"};\n",
    "interface A {}; é",
    "interface Aé {};",
    "\u{feff}interface A {};",
    "interface A\u{a0}{};",
    "interface A\0{};",
    "enum E {\"日本\"};",
    "interface A {};\n///d\n",
    "///d\n[A] interface B {};",
    "[A] ///d\ninterface B {};",
    "///a\n// c\n///b\ninterface A {};",
    "///a\n// c\ninterface A {};",
    "dictionary D { ///d\n long x; };",
    "///a\n/// b\ninterface A {};\nB includes C;",
    "///\nenum E {\"x\"};",
    "///a\r\ndictionary D { ///d\n long x; };",
    "///a\ninterface A {}; ///d",
];
