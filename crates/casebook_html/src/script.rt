//! The script of a page.

/// The footer, the script and the end of the page. The script has search, and keys that go through
/// the lines. A page can be read without it.
pub(crate) const SCRIPT: &str =
    "</main><footer>/ search, j and k go through lines, o opens, e opens all</footer><script>const q=document.getElementById('q'),rows=[...document.querySelectorAll('.l')],hot=rows.filter(r=>!r.matches('.u'));let at=-1;q.hidden=false;
q.oninput=()=>{const w=q.value.toLowerCase();for(const r of rows)r.style.display=!w||r.textContent.toLowerCase().includes(w)?'':'none';for(const f of document.querySelectorAll('.fold')){const any=[...f.querySelectorAll('.l')].some(r=>r.style.display!='none');f.style.display=any?'':'none';f.open=!!w&&any}};
const go=d=>{const v=hot.filter(r=>r.offsetParent);if(!v.length)return;v[at]?.classList.remove('at');at=Math.max(0,Math.min(v.length-1,at+d));v[at].classList.add('at');v[at].scrollIntoView({block:'center'})};
const show=()=>{const r=/^#l\\d+$/.test(location.hash)&&document.querySelector(location.hash);if(r){r.closest('.fold')?.setAttribute('open','');r.open=true;r.scrollIntoView({block:'center'})}};addEventListener('hashchange',show);show();
addEventListener('keydown',e=>{if(e.target==q){if(e.key=='Escape'){q.value='';q.oninput();q.blur()}return}if(e.ctrlKey||e.metaKey||e.altKey)return;const k=e.key;
if(k=='/'){e.preventDefault();q.focus()}else if(k=='j')go(1);else if(k=='k')go(-1);else if(k=='o'){const r=document.querySelector('.at');if(r)r.open=!r.open}else if(k=='e'){const o=!hot[0]?.open;for(const r of hot)r.open=o}});
</script></body></html>
";
