//! The texts that every picture has: its style, its shapes and its legend.

/// How a picture begins, before its size.
pub(crate) const SVG_BEGIN: &str = "<svg xmlns='http://www.w3.org/2000/svg'";

/// The style in light.
pub(crate) const LIGHT: &str =
    "<style>text{font:11px system-ui,sans-serif;fill:#222}.scope{font-weight:600;clip-path:url(#left)}.task{clip-path:url(#left)}.moment{font-size:10px;fill:#666}path{fill:none}.open,.shut,.cancelled,.settled,.closing,.folded,.fallen,.waiting,.running,.done,.failed,.lost{shape-rendering:crispEdges}.open{stroke:#8cc8f0;stroke-width:14}.shut{stroke:#dceaf4;stroke-width:14}.cancelled{stroke:#e9bcd3;stroke-width:14}.settled{stroke:#d5e5d8;stroke-width:14}.closing{stroke:#aaa;stroke-width:4}.folded{stroke:#b9d8c4;stroke-width:16}.fallen{stroke:#f0b98d;stroke-width:16}.waiting{stroke:#0072b2;stroke-width:2;stroke-dasharray:4 3}.running{stroke:#0072b2;stroke-width:8}.done{stroke:#009e73;stroke-width:8}.failed{stroke:#d55e00;stroke-width:8}.lost{stroke:#888;stroke-width:8}.ground{fill:#fff}.tick{stroke:#999;stroke-dasharray:1 3}.axis{stroke:#8883}.time{text-anchor:middle}.reach{stroke:#a3195b;stroke-width:2;stroke-dasharray:3 2}";

/// The style in the dark.
pub(crate) const DARK: &str =
    "@media(prefers-color-scheme:dark){text{fill:#ddd}.moment{fill:#aaa}.open{stroke:#2f6c96}.shut{stroke:#24343f}.cancelled{stroke:#6e2f4e}.settled{stroke:#2b4232}.closing{stroke:#777}.folded{stroke:#2f5a43}.fallen{stroke:#7a4a22}.waiting,.running{stroke:#56b4e9}.ground{fill:#16181c}.reach{stroke:#ec6aa6}}</style>\n";

/// The shapes of the ends of tasks.
pub(crate) const END_SHAPES: &str =
    "<defs><clipPath id='left'><rect x='0' y='0' width='244' height='7999999'/></clipPath><g id='success'><circle r='6' fill='#009e73'/><path d='M-3 0L-1 2L3 -2' stroke='#fff' stroke-width='2'/></g><g id='failed'><circle r='6' fill='#d55e00'/><path d='M-3 -3L3 3M3 -3L-3 3' stroke='#fff' stroke-width='2'/></g><g id='unavailable'><circle r='5' fill='#fff' stroke='#777' stroke-width='2'/></g><g id='never'><path d='M-4 -4L4 4M4 -4L-4 4' stroke='#777' stroke-width='2'/></g>\n";

/// The shapes of what happens to scopes, and the ground.
pub(crate) const SCOPE_SHAPES: &str =
    "<g id='joined'><path d='M0 -7L7 0L0 7L-7 0Z' style='fill:#0072b2'/></g><g id='began'><path d='M-4 -8H-9V8H-4' stroke='#777' stroke-width='2'/></g><g id='closed'><path d='M-2 -8H3V8H-2' stroke='#777' stroke-width='2'/></g><g id='moved'><path d='M-5 -6H5L-5 6H5Z' style='fill:#e69f00'/></g><g id='cancel'><rect x='-6' y='-6' width='12' height='12' fill='#a3195b'/><path d='M-3 -3L3 3M3 -3L-3 3' stroke='#fff' stroke-width='2'/></g><g id='reached'><circle r='5' fill='#a3195b'/></g><g id='settled'><circle r='3' fill='#777'/></g><g id='shield'><path d='M0 -9L8 -6V1C8 5 4 8 0 10C-4 8 -8 5 -8 1V-6Z' style='fill:#f0e442' stroke='#444'/></g></defs>\n<rect class='ground' width='100%' height='100%'/>\n";

/// What the lines mean.
pub(crate) const LINE_LEGEND: &str =
    "<g transform='translate(0 0)'><path class='open' d='M0 0H24'/><text x='32' y='4'>scope open</text></g><g transform='translate(116 0)'><path class='shut' d='M0 0H24'/><text x='32' y='4'>closed</text></g><g transform='translate(232 0)'><path class='cancelled' d='M0 0H24'/><text x='32' y='4'>cancelled</text></g><g transform='translate(348 0)'><path class='settled' d='M0 0H24'/><text x='32' y='4'>ended early</text></g><g transform='translate(464 0)'><path class='closing' d='M0 0H24'/><text x='32' y='4'>closing</text></g><g transform='translate(580 0)'><path class='waiting' d='M0 0H24'/><text x='32' y='4'>task waits</text></g><g transform='translate(696 0)'><path class='running' d='M0 0H24'/><text x='32' y='4'>runs</text></g><g transform='translate(812 0)'><path class='done' d='M0 0H24'/><text x='32' y='4'>succeeded</text></g><g transform='translate(928 0)'><path class='failed' d='M0 0H24'/><text x='32' y='4'>failed</text></g><g transform='translate(1044 0)'><path class='lost' d='M0 0H24'/><text x='32' y='4'>unavailable</text></g>\n";

/// What the marks mean.
pub(crate) const MARK_LEGEND: &str =
    "<g transform='translate(0 24)'><use href='#success' x='12'/><text x='32' y='4'>success</text></g><g transform='translate(116 24)'><use href='#failed' x='12'/><text x='32' y='4'>failed</text></g><g transform='translate(232 24)'><use href='#unavailable' x='12'/><text x='32' y='4'>unavailable</text></g><g transform='translate(348 24)'><use href='#never' x='12'/><text x='32' y='4'>never starts</text></g><g transform='translate(464 24)'><use href='#joined' x='12'/><text x='32' y='4'>joined</text></g><g transform='translate(580 24)'><use href='#began' x='12'/><text x='32' y='4'>close begins</text></g><g transform='translate(696 24)'><use href='#closed' x='12'/><text x='32' y='4'>closed</text></g><g transform='translate(812 24)'><use href='#moved' x='12'/><text x='32' y='4'>deadline set</text></g>\n";

/// What the marks of cancels mean, and the picture's end.
pub(crate) const CANCEL_LEGEND: &str =
    "<g transform='translate(0 48)'><use href='#cancel' x='12'/><text x='32' y='4'>own cancel</text></g><g transform='translate(116 48)'><use href='#reached' x='12'/><text x='32' y='4'>reached</text></g><g transform='translate(232 48)'><use href='#settled' x='12'/><text x='32' y='4'>normal end</text></g><g transform='translate(348 48)'><use href='#shield' x='12'/><text x='32' y='4'>shield held</text></g>\n</g>\n</svg>\n";
